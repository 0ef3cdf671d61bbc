ghost use Rattle.std.specs.Prelude.{◌+◌, ◌≤◌, length};
ghost use Rattle.writing.specs.Writers.{HasRoom, Puts};
ghost use Rattle.replies.specs.Openings.{accepted, list_opening};

use element::Element;
use writing::Writer;

/// The first line of the answer to an accepted packet with this identifier.
pub fn put_accepted(reply: &mut Writer, id: &[u8])
    requires short { length id.now ≤ 16 }
    requires room { HasRoom reply.old 30 }
    ensures puts { Puts reply.old (accepted id.now) reply.new }
    ensures most { reply.new.written ≤ reply.old.written + 30 }
{
    reply.put(b"SS ");
    reply.put(id);
    reply.put(b" ACCEPTED.\n");
}

/// What stands before the rows of the element's slot list: its title, an empty line and the words of
/// its columns.
pub fn put_list_opening<E: Element>(reply: &mut Writer, element: &E)
    requires room { HasRoom reply.old 75 }
    ensures puts { Puts reply.old (list_opening (E.Element.means element.now)) reply.new }
    ensures most { reply.new.written ≤ reply.old.written + 75 }
{
    reply.put(b"SLOT LIST for ");
    reply.put(element.name());
    reply.put(b"\n\n");
    reply.put(b"ACID ASLOT DEP ARR CTD CTA TYPE EX CX SH ");
    reply.put(element.column_word());
    reply.put(b" IGTD\n");
}
