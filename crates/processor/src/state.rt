ghost use Rattle.std.specs.Prelude.{◌≡◌, true};
ghost use Rattle.model.specs.Model.{program_stands};
ghost use Rattle.processor.specs.Kept.{program_of};

use element::Element;
use flights::Table;
use model::Condition;
use register::Register;

/// The processor of one program for one controlled element: one engine for all registers and
/// elements. Its program keeps the standing rules at all times.
#[derive(Drop)]
pub struct Processor<R: Register + Drop, E: Element + Drop> {
    pub(crate) register: R,
    pub(crate) element: E,
    pub(crate) condition: Condition,
    pub(crate) table: Table,
    ghost stands: { program_stands (E.means element) (program_of condition (E.span element) table) ≡ true },
}
