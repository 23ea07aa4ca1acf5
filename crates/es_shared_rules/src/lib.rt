//! Forms of the table of programs (`es_grammar`) that rows of expressions, of members and of statements share.
#![tactic(auto)]

mod ends;
mod functions;
mod patterns;
pub mod predicates;
mod typed;

pub use ends::{Ended, UsingIn};
pub use functions::{
    AbstractClass, AnyClass, AnyFunction, AsyncFunction, BodyIn, Class, ClassForm, Function,
    NameIn, StarIn,
};
pub use patterns::{ArrayPattern, BracketPattern, DefaultIn, ObjectPattern, Pattern};
pub use typed::{
    Annotation, AnnotationIn, ArrowResultIn, Asserted, AssertedOr, HeritageIn, ImplementsIn,
    NewArgumentsIn, ReferencesIn, ResultIn, TypeArguments, TypeArgumentsIn, TypeParameters,
    TypeParametersIn, without_colon,
};
