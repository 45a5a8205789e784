// A page of text that is filled from its start.
ghost use Rattle.std.specs.Prelude.{[], ◌++◌, ◌≡◌, ◌≤◌, length, take, replicate};
ghost use Rattle.text.specs.Over.{over};
ghost use Rattle.text.specs.Written.{decimal, signed};

use std::marker::Model;

// So many bytes, of which the first are written and the others are 0.
#[derive(Clone, Copy)]
pub struct Page<const N: usize> {
    bytes: [u8; N],
    count: usize,
}

// Clauses see the bytes written.
impl<const N: usize> Model for Page<N> {
    ghost use Rattle.std.specs.Prelude.{List, ℕ, ◌++◌, ◌≡◌, ◌≤◌, ◌-◌, take, drop, replicate, length};
    ghost use Rattle.std.proofs.Common.{sym, ap, ap₂, ◌∙◌, length-take-le, take-append-drop};

    ghost Value = { List ℕ };

    ghost view = { λ p. take p.count p.bytes };

    ghost invariant = { λ p. (p.count ≤ length p.bytes) × (drop p.count p.bytes ≡ replicate (N - p.count) 0) };

    ghost inverse = { λ xs. record { bytes = xs ++ replicate (N - length xs) 0; count = length xs } };

    ghost inverse_ok = { λ p h. ap₂ (λ bytes count. record { bytes = bytes; count = count }) (ap (λ n. take p.count p.bytes ++ replicate (N - n) 0) (length-take-le p.count p.bytes h.0) ∙ ap (λ blank. take p.count p.bytes ++ blank) (sym h.1) ∙ take-append-drop p.count p.bytes) (length-take-le p.count p.bytes h.0) };
}

impl<const N: usize> Page<N> {
    // With nothing written.
    pub fn new() -> Page<N>
        ensures { result ≡ [] }
    {
        Page {
            bytes: [0; N],
            count: 0,
        }
    }

    // Writes bytes after those written, as many as there is room for.
    // One by one: by `copy_from_slice` here, the library for C would need `memmove` from outside, which it does not.
    #[tactic(auto, using(crate::proofs::Pages::blank_after, crate::proofs::Pages::written_on))]
    pub fn put(&mut self, bytes: &[u8])
        ensures { self.new ≡ take N (self.old ++ bytes.now) }
    {
        let more = (N - self.count).min(bytes.len());
        let page = &mut self.bytes[..];
        let room = &mut page[self.count..self.count + more];
        for (k, byte) in bytes[..more].iter().enumerate() {
            room[k] = *byte;
        }
        self.count += more;
    }

    // Writes a number's digits; the cast keeps one. Not by `Display`: last_digit_by_nines edits what is written here, and plus_for_minus in `put_number`.
    #[tactic(auto, using(crate::proofs::Pages::one_digit, crate::proofs::Pages::next_digit))]
    fn put_digits(&mut self, n: u64)
        ensures { self.new ≡ take N (self.old ++ decimal n) }
    {
        if 10 <= n {
            self.put_digits(n / 10);
        }
        self.put(&[b'0' + (n % 10) as u8]);
    }

    // Writes a number with its sign, in decimal.
    pub fn put_number(&mut self, n: i64)
        ensures { self.new ≡ take N (self.old ++ signed n) }
    {
        if n < 0 {
            self.put(b"-");
        }
        self.put_digits(n.unsigned_abs());
    }

    // The bytes written.
    pub fn as_bytes(&self) -> &[u8]
        ensures written { result.now ≡ self.now }
        ensures within { length result.now ≤ N }
    {
        &self.bytes[..self.count]
    }

    // The whole page.
    #[tactic(auto, using(crate::proofs::Pages::whole_page))]
    pub fn whole(&self) -> &[u8; N]
        ensures { result.now ≡ over self.now (replicate N 0) }
    {
        &self.bytes
    }
}
