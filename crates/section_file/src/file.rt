// The answer to a text, put onto the page.
ghost use Rattle.std.specs.Prelude.{Some, ◌≡◌};
ghost use Rattle.section_file.specs.Answer.{read, answered, answer};
ghost use Rattle.section_file.specs.Printing.{with_more};

use crate::layout::File;
use crate::{answers, layout};
use text::page::Page;

// Puts the answer to a file: a plan of its section, or a judgement of the departures that were recorded.
fn put_file(page: &mut Page<8192>, file: &File)
    ensures { page.new ≡ with_more page.old (answered (Some file.now)) }
{
    if file.recorded.is_empty() {
        answers::put_plan(page, file);
    } else {
        answers::put_judgement(page, file);
    }
}

// The file that a text is, of numbers that are read into `values`.
#[tactic(auto, using(crate::proofs::Files::too_long))]
fn read<'a>(text: &[u8], values: &'a mut [i32; 1543]) -> Option<File<'a>>
    ensures { result ≡ read text.now }
{
    if 16384 < text.len() {
        return None;
    }
    let count = text::read::numbers(text, values)?;
    layout::find(&values[..count])
}

// Puts the answer to a text. Nothing is taken from the heap: the numbers of every file fit 1,543 places.
#[tactic(auto, unfolding(crate::specs::Answer::answer, crate::specs::Lines::unreadable_word))]
pub fn put_text(page: &mut Page<8192>, text: &[u8])
    ensures { page.new ≡ with_more page.old (answer text.now) }
{
    let mut values = [0; 1543];
    match read(text, &mut values) {
        Some(file) => put_file(page, &file),
        None => page.put(b"unreadable\n"),
    }
}
