//! The texts of errors.

use grammar_theory::{Lang, Mode, SyntaxError};
use std::alloc::AllocError;
use std::test::Fail;

#[test]
fn errors(rt: HostRuntime) -> Result<(), Fail> {
    let text = format!(in rt.alloc(); "{}", SyntaxError::Syntax { token: 3 })?;
    assert_eq!(rt; text.as_str(), "unexpected token (number 3)");
    assert_eq!(rt; SyntaxError::from(AllocError), SyntaxError::OutOfMemory);
    assert_ne!(rt; Lang::Es, Lang::Typescript);
    assert_ne!(rt; Mode::Module, Mode::Script);
    Ok(())
}
