//! Comments by their places.

use es_comments::{CommentMap, MultiThreadedComments, comments_of};
use es_lexer::lex_tokens;
use std::alloc::{AllocError, Global};

/// A text, and its comments, each with its place and its text: `<` for a leading one, `>` for a trailing one.
const ROWS: &[(&str, &str)] = &[
    ("// 1\nt;/* 2 */", "<5: 1|>7: 2 "),
    ("/*a*/ b /*c*/ ; // d", "<6:a|>7:c|>15: d"),
    ("a\n/*b*/ c", "<8:b"),
    ("a /*b\n*/ /*c*/ d", "<15:c|>1:b\n"),
    ("a\u{2028}/*b*/ c", "<10:b"),
    ("// only", "<0: only"),
    ("#!/a\n// b", ">4: b"),
    ("#!/a\n// b\nc", "<10: b"),
    ("a;\n\n// end", ">2: end"),
];

fn add(alloc: Global, lines: &mut String, sign: &str, map: &CommentMap) -> Result<(), AllocError> {
    for (place, comments) in map {
        for comment in comments {
            if !lines.is_empty() {
                lines.push_str("|")?;
            }
            let line = format!(in alloc; "{sign}{place}:{}", comment.text)?;
            lines.push_str(line.as_str())?;
        }
    }
    Ok(())
}

fn lines(alloc: Global, comments: &MultiThreadedComments) -> Result<String, AllocError> {
    let mut lines = String::new(alloc);
    add(alloc, &mut lines, "<", comments.leading_map())?;
    add(alloc, &mut lines, ">", comments.trailing_map())?;
    Ok(lines)
}

#[test]
fn places_of_comments(rt: HostRuntime) {
    for (text, want) in ROWS.iter() {
        let lexed = lex_tokens(rt.alloc(), text).expect(&rt, "tokens");
        let (tokens, comments) = (lexed.tokens.as_slice(), lexed.comments.as_slice());
        let placed = comments_of(rt.alloc(), text, tokens, comments).expect(&rt, "memory");
        let shared = MultiThreadedComments::from_single_threaded(rt.alloc(), placed);
        let shared = shared.expect(&rt, "memory");
        let got = lines(rt.alloc(), &shared).expect(&rt, "memory");
        assert_eq!(rt; got.as_str(), *want);
        let again = again(rt.alloc(), &shared).expect(&rt, "memory");
        let got = lines(rt.alloc(), &again).expect(&rt, "memory");
        assert_eq!(rt; got.as_str(), *want);
        let all = again.get_vec(rt.alloc()).expect(&rt, "memory");
        assert!(rt; all.as_slice() == comments);
    }
}

// The comments after a way through copies of their maps.
fn again(
    alloc: Global,
    comments: &MultiThreadedComments,
) -> Result<MultiThreadedComments, AllocError> {
    let maps = comments.copy()?.into_single_threaded(alloc)?;
    let shared = MultiThreadedComments::from_single_threaded(alloc, maps)?;
    let maps = shared.as_single_threaded(alloc)?;
    MultiThreadedComments::from_leading_and_trailing(alloc, maps.leading, maps.trailing)
}
