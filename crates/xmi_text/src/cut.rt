// Where a text is cut.
ghost use Rattle.std.specs.Prelude.{◌≡◌, ◌≤◌, length};
ghost use Rattle.xmi_text.specs.Cuts.{place_of as first_place_of};

/// How many bytes stand before the first of this one: all, where there is none.
pub fn place_of(mark: u8, text: &[u8]) -> usize
    ensures place { result ≡ first_place_of mark text.now }
    ensures within { result ≤ length text.now }
{
    for i in 0..text.len() {
        if text[i] == mark {
            return i;
        }
    }
    text.len()
}
