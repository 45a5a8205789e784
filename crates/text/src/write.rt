// A number as it is written.
ghost use Rattle.std.specs.Prelude.{◌≡◌, ◌≤◌, length};
ghost use Rattle.text.specs.Written.{signed};

use crate::page::Page;

// A number with its sign, in decimal; the bytes after it are 0.
#[tactic(auto, using(crate::proofs::Decimal::signed_length, crate::proofs::Decimal::signed_whole))]
pub fn number(n: i64) -> Page<20>
    ensures written { result ≡ signed n }
    ensures within { length result ≤ 20 }
{
    let mut page = Page::new();
    page.put_number(n);
    page
}
