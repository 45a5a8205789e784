// The section file: from its bytes to the bytes of the answer.
// Everything but `answer_text` is private.
#![tactic(auto)]

ghost use Rattle.std.specs.Prelude.{◌≡◌, ◌≤◌, length};
ghost use Rattle.section_file.specs.Answer.{answer};

use text::page::Page;

mod answers;
mod file;
mod layout;
mod lines;

// The answer to a text: a section file is planned or judged, any other text is unreadable.
pub fn answer_text(text: &[u8]) -> Page<8192>
    ensures written { result ≡ answer text.now }
    ensures within { length result ≤ 8192 }
{
    let mut page = Page::new();
    file::put_text(&mut page, text);
    page
}
