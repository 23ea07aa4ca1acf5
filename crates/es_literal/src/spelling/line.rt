ghost use Rattle.std.specs.Prelude.{◌≡◌};
ghost use Rattle.es_literal.specs.spelling.Lines.{begins_separator, begins_line_end};

/// Whether the text begins with a line end.
#[tactic(auto, unfolding(crate::specs::spelling::Lines::begins_line_end))]
pub fn begins_line_end(text: &[u8]) -> bool
    ensures { result ≡ begins_line_end text.now }
{
    match text {
        [b'\n', ..] => true,
        [b'\r', ..] => true,
        [0xE2, rest @ ..] => begins_separator(rest),
        _ => false,
    }
}

/// Whether the further bytes of U+2028 or U+2029 come next.
#[tactic(auto, unfolding(crate::specs::spelling::Lines::begins_separator))]
fn begins_separator(text: &[u8]) -> bool
    ensures { result ≡ begins_separator text.now }
{
    match text {
        [b, c, ..] => *b == 0x80 && (*c == 0xA8 || *c == 0xA9),
        _ => false,
    }
}
