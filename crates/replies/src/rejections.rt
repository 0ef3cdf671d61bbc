ghost use Rattle.std.specs.Prelude.{◌≡◌, ◌+◌, ◌<◌, ◌≤◌, length};
ghost use Rattle.writing.specs.Writers.{HasRoom, Puts};
ghost use Rattle.replies.specs.Rejections.{error_word, rejected, fault};

use writing::Writer;

/// ` ERROR.` after the number 1, and ` ERRORS.` after another.
fn error_word(errors: usize) -> &'static [u8]
    ensures word { result.now ≡ error_word errors }
    ensures short { length result.now ≤ 8 }
{
    if errors == 1 { b" ERROR." } else { b" ERRORS." }
}

/// What stands before the faulty lines of a rejected packet: the line with its identifier and the
/// number of errors, and an empty line.
pub fn put_rejected(reply: &mut Writer, id: &[u8], errors: usize)
    requires short { length id.now ≤ 16 }
    requires few { errors ≤ 64 }
    requires room { HasRoom reply.old 43 }
    ensures puts { Puts reply.old (rejected id.now errors) reply.new }
    ensures most { reply.new.written ≤ reply.old.written + 43 }
{
    reply.put(b"SS ");
    reply.put(id);
    reply.put(b" REJECTED. ");
    reply.put_number(errors as u32);
    reply.put(error_word(errors));
    reply.put(b"\n\n");
}

/// A faulty line, and the line with the number of its error, which is below 1,000.
// Kept: a number and no Refusal, since any number may be printed here.
pub fn put_fault(reply: &mut Writer, text: &[u8], number: u32)
    requires short { length text.now ≤ 160 }
    requires small { number < 1000 }
    requires room { HasRoom reply.old 169 }
    ensures puts { Puts reply.old (fault text.now number) reply.new }
    ensures most { reply.new.written ≤ reply.old.written + 169 }
{
    reply.put(text);
    reply.put(b"\nERR ");
    reply.put_number(number);
    reply.put(b"\n");
}
