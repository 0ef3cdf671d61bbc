ghost use Rattle.std.specs.Prelude.{◌≡◌, ◌≤◌, ◌==◌, [], ◌∷◌, length, slice_index_or};
ghost use Rattle.std.specs.List.{prefix_len, position};
ghost use Rattle.std.specs.Iterator.{YieldsFirstBy, item_count};
ghost use Rattle.text.specs.Parts.{parts, parts_of, is_other, chomped, at};
ghost use Rattle.text.specs.Lines.{lines, fields, line_of, lines_left, fields_left, clipped};

/// Where the first `b` stands.
fn first(s: &[u8], b: u8) -> Option<usize>
    ensures { result ≡ position (λ x. x == b) s.now }
{
    s.iter().position(|x| *x == b)
}

/// How many bytes stand before the first `b`.
pub fn run_len(s: &[u8], b: u8) -> usize
    ensures { result ≡ prefix_len (is_other b) s.now }
{
    first(s, b).unwrap_or(s.len())
}

/// The bytes before the first `b`, and those after it where there is one.
#[tactic(auto, using(crate::proofs::Cuts::parts_at, crate::proofs::Cuts::parts_whole, std::proofs::lemmas::List::take_rest))]
fn cut(s: &[u8], b: u8) -> (&[u8], Option<&[u8]>)
    ensures { parts b s.now ≡ result.0.now ∷ parts_of b result.1 }
{
    match first(s, b) {
        Some(n) => (&s[..n], Some(&s[n + 1..])),
        None => (s, None),
    }
}

/// Without the last byte, where that is `b`.
#[tactic(auto, using(crate::proofs::Cuts::chomped_taken, crate::proofs::Cuts::chomped_kept))]
fn chomp(s: &[u8], b: u8) -> &[u8]
    ensures { result.now ≡ chomped b s.now }
{
    match s.split_last() {
        Some((last, front)) if *last == b => front,
        _ => s,
    }
}

/// The fields of a line, parted by exactly one space each.
#[derive(Clone, Copy)]
// Kept: a cursor of our own, and Lines with it: the library's split carries a closure, whose type no struct can name.
pub struct Fields<'a> {
    rest: Option<&'a [u8]>,
}

impl<'a> Fields<'a> {
    pub fn new(line: &'a [u8]) -> Fields<'a>
        ensures { fields_left result ≡ fields line.now }
    {
        Fields { rest: Some(line) }
    }
}

impl<'a> Iterator for Fields<'a> {
    type Item = &'a [u8];

    ghost next_gives = { YieldsFirstBy at fields_left };

    ghost remaining = { item_count fields_left };

    fn next(&mut self) -> Option<&'a [u8]> {
        let rest = self.rest?;
        let (field, after) = cut(rest, b' ');
        self.rest = after;
        Some(field)
    }
}

/// A line of the input: its first 160 bytes, and whether that is all of it.
#[derive(Clone, Copy)]
pub struct Line<'a> {
    pub text: &'a [u8],
    // Kept: a flag beside the text, and no Option of it: the first bytes of a longer line are echoed too.
    pub readable: bool,
}

impl<'a> Line<'a> {
    fn new(all: &'a [u8]) -> Line<'a>
        ensures { line_of result ≡ clipped all.now }
    {
        if all.len() <= 160 {
            Line {
                text: all,
                readable: true,
            }
        } else {
            Line {
                text: &all[0..160],
                readable: false,
            }
        }
    }
}

/// The lines of an input, each ended by LF; the last may lack it, and no bytes are one empty line.
#[derive(Clone, Copy)]
pub struct Lines<'a> {
    rest: Option<&'a [u8]>,
}

impl<'a> Lines<'a> {
    pub fn new(input: &'a [u8]) -> Lines<'a>
        ensures { lines_left result ≡ lines input.now }
    {
        Lines {
            rest: Some(chomp(input, b'\n')),
        }
    }
}

impl<'a> Iterator for Lines<'a> {
    type Item = Line<'a>;

    ghost next_gives = { YieldsFirstBy line_of lines_left };

    ghost remaining = { item_count lines_left };

    fn next(&mut self) -> Option<Line<'a>> {
        let rest = self.rest?;
        let (all, after) = cut(rest, b'\n');
        self.rest = after;
        Some(Line::new(all))
    }
}

/// How many fields a line has.
pub fn count_fields(line: &[u8]) -> usize
    ensures { result ≡ length (fields line.now) }
{
    Fields::new(line).count()
}

/// The field with `k` fields before it, and the empty text where the line has no such field.
pub fn field_at(line: &[u8], k: usize) -> &[u8]
    ensures { result.now ≡ slice_index_or (fields line.now) k [] }
{
    Fields::new(line).nth(k).unwrap_or(b"")
}
