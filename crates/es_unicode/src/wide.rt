ghost use Rattle.std.specs.Prelude.{◌≡◌, ◌≤◌, ◌+◌, length};
ghost use Rattle.es_unicode.specs.Wide.{is_blank_of_two, is_space, is_blank_of_three, is_separator, blank_of_two, blank_of_three, wide_blank, wide_line, is_tail, tail_of, two_size, three_size, four_size, wide_by, wide_size};

/// The size of the blank past ASCII at the front of the text, 0 where there is none.
#[tactic(auto, unfolding(crate::specs::Wide::wide_blank, crate::specs::Wide::blank_of_two, crate::specs::Wide::blank_of_three))]
pub fn wide_blank(text: &[u8]) -> usize
    ensures value { result ≡ wide_blank text.now }
    ensures within { result ≤ length text.now }
{
    match text {
        [a, b, c, ..] => {
            if is_blank_of_two(*a, *b) {
                2
            } else if is_blank_of_three(*a, *b, *c) {
                3
            } else {
                0
            }
        }
        [a, b] => { if is_blank_of_two(*a, *b) { 2 } else { 0 } }
        _ => 0,
    }
}

#[tactic(auto, unfolding(crate::specs::Wide::is_blank_of_two))]
fn is_blank_of_two(a: u8, b: u8) -> bool
    ensures { result ≡ is_blank_of_two a b }
{
    a == 0xC2 && b == 0xA0
}

#[tactic(auto, unfolding(crate::specs::Wide::is_blank_of_three))]
fn is_blank_of_three(a: u8, b: u8, c: u8) -> bool
    ensures { result ≡ is_blank_of_three a b c }
{
    a == 0xE2 && is_space(b, c)
        || (a == 0xE1 && (b == 0x9A && c == 0x80)
            || (a == 0xE3 && (b == 0x80 && c == 0x80) || a == 0xEF && (b == 0xBB && c == 0xBF)))
}

#[tactic(auto, unfolding(crate::specs::Wide::is_space))]
fn is_space(b: u8, c: u8) -> bool
    ensures { result ≡ is_space b c }
{
    b == 0x80 && (0x80 <= c && c <= 0x8A || c == 0xAF) || b == 0x81 && c == 0x9F
}

#[tactic(auto, unfolding(crate::specs::Wide::is_separator))]
fn is_separator(a: u8, b: u8, c: u8) -> bool
    ensures { result ≡ is_separator a b c }
{
    a == 0xE2 && (b == 0x80 && (c == 0xA8 || c == 0xA9))
}

/// The size of the line end past ASCII at the front of the text, U+2028 or U+2029; 0 where there is none.
#[tactic(auto, unfolding(crate::specs::Wide::wide_line))]
pub fn wide_line(text: &[u8]) -> usize
    ensures value { result ≡ wide_line text.now }
    ensures within { result ≤ length text.now }
{
    match text {
        [a, b, c, ..] => { if is_separator(*a, *b, *c) { 3 } else { 0 } }
        _ => 0,
    }
}

/// The size of the character past ASCII at the front of the text that a word may have, 0 where there is none.
#[tactic(auto, unfolding(crate::specs::Wide::wide_size, crate::specs::Wide::wide_by))]
pub fn wide_size(text: &[u8]) -> usize
    ensures value { result ≡ wide_size text.now }
    ensures within { result ≤ length text.now }
{
    match text {
        [] => 0,
        [a, rest @ ..] => match tail_of(*a) {
            0 => 0,
            1 => two_size(*a, rest),
            2 => three_size(*a, rest),
            _ => four_size(rest),
        },
    }
}

#[tactic(auto, unfolding(crate::specs::Wide::is_tail))]
fn is_tail(b: u8) -> bool
    ensures { result ≡ is_tail b }
{
    0x80 <= b && b <= 0xBF
}

/// How many further bytes a character has that begins with this byte, 0 where none past ASCII does.
#[tactic(auto, unfolding(crate::specs::Wide::tail_of))]
fn tail_of(a: u8) -> usize
    ensures { result ≡ tail_of a }
{
    if 0xC2 <= a && a <= 0xDF {
        1
    } else if 0xE0 <= a && a <= 0xEF {
        2
    } else if 0xF0 <= a && a <= 0xF4 {
        3
    } else {
        0
    }
}

#[tactic(auto, unfolding(crate::specs::Wide::two_size))]
fn two_size(a: u8, rest: &[u8]) -> usize
    ensures value { result ≡ two_size a rest.now }
    ensures within { result ≤ length rest.now + 1 }
{
    match rest {
        [b, ..] => {
            if is_tail(*b) && !is_blank_of_two(a, *b) {
                2
            } else {
                0
            }
        }
        _ => 0,
    }
}

#[tactic(auto, unfolding(crate::specs::Wide::three_size))]
fn three_size(a: u8, rest: &[u8]) -> usize
    ensures value { result ≡ three_size a rest.now }
    ensures within { result ≤ length rest.now + 1 }
{
    match rest {
        [b, c, ..] => {
            let gap = is_blank_of_three(a, *b, *c) || is_separator(a, *b, *c);
            if is_tail(*b) && (is_tail(*c) && !gap) {
                3
            } else {
                0
            }
        }
        _ => 0,
    }
}

#[tactic(auto, unfolding(crate::specs::Wide::four_size))]
fn four_size(rest: &[u8]) -> usize
    ensures value { result ≡ four_size rest.now }
    ensures within { result ≤ length rest.now + 1 }
{
    match rest {
        [b, c, d, ..] => {
            if is_tail(*b) && (is_tail(*c) && is_tail(*d)) {
                4
            } else {
                0
            }
        }
        _ => 0,
    }
}
