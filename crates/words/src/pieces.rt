// Bytes cut at a mark.
ghost use Rattle.std.specs.Prelude.{◌≡◌, ◌==◌, ◌<◌, ◌≤◌, length, position};
ghost use Rattle.std.specs.Iterator.{YieldsFirstRef, item_count};
ghost use Rattle.words.specs.Pieces.{before, beyond, pieces};

// The bytes before the first `mark`, and those behind it; all and none, where there is no mark.
pub fn cut_at(bytes: &[u8], mark: u8) -> (&[u8], &[u8])
    ensures front { result.0.now ≡ before mark bytes.now }
    ensures back { result.1.now ≡ beyond mark bytes.now }
    ensures shorter { 0 < length bytes.now → length result.1.now < length bytes.now }
{
    match place(bytes, mark) {
        Some(i) => (&bytes[..i], &bytes[i + 1..]),
        None => bytes.split_at(bytes.len()),
    }
}

// The place of the first `mark`.
fn place(bytes: &[u8], mark: u8) -> Option<usize>
    ensures { result ≡ position (λ b. b == mark) bytes.now }
{
    bytes.iter().position(|b| *b == mark)
}

// The pieces of bytes between marks, each as far as the next mark: a mark at the end ends the last piece, and begins none.
#[derive(Drop)]
pub struct Pieces<'a> {
    rest: &'a [u8],
    mark: u8,
}

impl<'a> Pieces<'a> {
    pub fn new(bytes: &'a [u8], mark: u8) -> Pieces<'a>
        ensures all { pieces result.mark result.rest.now ≡ pieces mark bytes.now }
        ensures few { length (pieces mark bytes.now) ≤ length bytes.now }
    {
        Pieces { rest: bytes, mark }
    }
}

impl<'a> Iterator for Pieces<'a> {
    type Item = &'a [u8];

    ghost next_gives = { YieldsFirstRef (λ s. pieces s.mark s.rest.now) };

    ghost remaining = { item_count (λ s. pieces s.mark s.rest.now) };

    fn next(&mut self) -> Option<&'a [u8]> {
        if self.rest.is_empty() {
            return None;
        }
        let (piece, rest) = cut_at(self.rest, self.mark);
        self.rest = rest;
        Some(piece)
    }
}
