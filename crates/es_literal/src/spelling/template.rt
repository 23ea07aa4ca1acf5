ghost use Rattle.std.specs.Prelude.{◌≡◌, ◌+◌, ◌<◌, ◌≤◌, ◌^◌, length};
ghost use Rattle.es_literal.specs.spelling.Templates.{begins_brace, pair_size, template_unit, template_stop, template_end};

/// What ends the text of a template.
#[derive(Clone, Copy)]
pub enum TemplateEnd {
    /// A backtick, which ends at this place.
    Closes(usize),
    /// `${`, which ends at this place.
    Substitutes(usize),
    /// The text's end.
    Unclosed,
}

/// The end of a template's text, which starts at `first`.
#[tactic(auto, unfolding(crate::specs::spelling::Templates::template_end))]
pub fn template_from(first: usize, bytes: &[u8]) -> TemplateEnd
    requires { first + length bytes.now < 2 ^ 64 }
    ensures { result ≡ template_end first bytes.now }
{
    let mut at = first;
    let mut rest = bytes;
    loop {
        let size = template_unit(rest);
        if size == 0 {
            break;
        }
        rest = &rest[size..];
        at += size;
    }
    template_stop(at, rest)
}

/// The size of what goes on in the text of a template, 0 where nothing does.
#[tactic(auto, unfolding(crate::specs::spelling::Templates::template_unit, crate::specs::spelling::Templates::pair_size, crate::specs::spelling::Templates::begins_brace))]
fn template_unit(text: &[u8]) -> usize
    ensures value { result ≡ template_unit text.now }
    ensures within { result ≤ length text.now }
{
    match text {
        [] => 0,
        [b'`', ..] => 0,
        [b'\\', _, ..] => 2,
        [b'\\'] => 0,
        [b'$', b'{', ..] => 0,
        [_, ..] => 1,
    }
}

#[tactic(auto, unfolding(crate::specs::spelling::Templates::template_stop, crate::specs::spelling::Templates::begins_brace))]
fn template_stop(at: usize, text: &[u8]) -> TemplateEnd
    requires { at + length text.now < 2 ^ 64 }
    ensures { result ≡ template_stop at text.now }
{
    match text {
        [b'`', ..] => TemplateEnd::Closes(at + 1),
        [b'$', b'{', ..] => TemplateEnd::Substitutes(at + 2),
        _ => TemplateEnd::Unclosed,
    }
}
