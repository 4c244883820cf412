// Blanks, and a part without the blanks at its ends.
ghost use Rattle.std.specs.Prelude.{◌≡◌, ◌≤◌, length};
ghost use Rattle.paths.specs.Places.{byte_in, first_at, past_last};
ghost use Rattle.query.specs.Items.{is_blank, solid};

// An arm for each: a switch. As one or-pattern it is three branches for a byte that is no blank, and queries by name slow by a tenth.
#[tactic(auto, unfolding(crate::specs::Items::is_blank))]
pub fn is_blank(b: u8) -> bool
    ensures { result ≡ is_blank b }
{
    match b {
        b' ' => true,
        b'\t' => true,
        b'\n' => true,
        b'\r' => true,
        _ => false,
    }
}

// Where what is not blank begins, from a on, or e.
pub(crate) fn skip_blanks(text: &[u8], a: usize, e: usize) -> usize
    requires { (a ≤ e) × (e ≤ length text.now) }
    ensures { result ≡ first_at (solid (byte_in text.now)) a e }
{
    match text[a..e].iter().position(|&b| !is_blank(b)) {
        Some(n) => a + n,
        None => e,
    }
}

// Where what is not blank ends, before e, or a.
pub(crate) fn drop_blanks(text: &[u8], a: usize, e: usize) -> usize
    requires { (a ≤ e) × (e ≤ length text.now) }
    ensures { result ≡ past_last (solid (byte_in text.now)) a e }
{
    match text[a..e].iter().rposition(|&b| !is_blank(b)) {
        Some(n) => a + n + 1,
        None => a,
    }
}
