//! What is printed of each form beside its parts.

ghost use Rattle.std.specs.Prelude.{◌≡◌};
ghost use Rattle.es_changed_printer.specs.Signs.{word_sign, first_sign, second_sign, sign_ahead, last_sign, ends_line, alternative, style_in, next_place};
ghost use Rattle.es_changed.specs.declared.entry.Form.TheVariants as form;

use es_changed::{Form, Word};
use es_grammar::NodeKind;
use es_printer::{Made, Style};

/// The place of a part among those of its form.
#[derive(Clone, Copy, Debug, PartialEq, Eq)]
pub enum Place {
    First,
    Second,
    Later,
}

pub fn next_place(place: Place) -> Place
    ensures { result ≡ next_place place }
{
    match place {
        Place::First => Place::Second,
        Place::Second | Place::Later => Place::Later,
    }
}

/// A keyword that is a type.
pub fn word_sign(word: Word) -> Made
    ensures { result ≡ word_sign word }
{
    match word {
        Word::Any => Made::Any,
        Word::String => Made::String,
        Word::Number => Made::Number,
        Word::Boolean => Made::Boolean,
        Word::BigInt => Made::BigInt,
        Word::Undefined => Made::Undefined,
        Word::Null => Made::Null,
    }
}

/// Before the parts; a name has this number.
pub fn first_sign(form: Form, number: u32) -> Option<Made>
    ensures { result ≡ first_sign form number }
{
    match form {
        Form::Rest | Form::RestParam => Some(Made::Ellipsis),
        Form::Tuple | Form::StrKey | Form::NumberKey | Form::EntityKey => Some(Made::OpenBracket),
        Form::Readonly | Form::ReadonlyProperty | Form::ReadonlyMember => Some(Made::Readonly),
        Form::Typeof => Some(Made::Typeof),
        Form::RegExp => Some(Made::RegExp),
        Form::Members => Some(Made::OpenBrace),
        Form::Parameters => Some(Made::OpenParen),
        Form::MadeName => Some(Made::Name(number)),
        Form::Annotation => Some(Made::Colon),
        Form::Optional => Some(Made::Question),
        Form::Declare | Form::DefaultConst => Some(Made::Declare),
        Form::DefaultName => Some(Made::Export),
        Form::Same
        | Form::Element
        | Form::Named
        | Form::Property
        | Form::Function
        | Form::Param
        | Form::ThisPattern
        | Form::HolePattern
        | Form::Pattern
        | Form::Path
        | Form::ThisPath
        | Form::Undeclare
        | Form::Field
        | Form::Method
        | Form::Getter
        | Form::Setter
        | Form::AsyncMethod
        | Form::GeneratorMethod
        | Form::AsyncGeneratorMethod => None,
    }
}

pub fn second_sign(form: Form) -> Option<Made>
    ensures { result ≡ second_sign form }
{
    match form {
        Form::DefaultConst => Some(Made::Const),
        Form::DefaultName => Some(Made::Default),
        Form::Same
        | Form::Element
        | Form::Rest
        | Form::Tuple
        | Form::Readonly
        | Form::Typeof
        | Form::Named
        | Form::RegExp
        | Form::Members
        | Form::Property
        | Form::ReadonlyProperty
        | Form::ReadonlyMember
        | Form::Function
        | Form::Parameters
        | Form::Param
        | Form::RestParam
        | Form::ThisPattern
        | Form::HolePattern
        | Form::Pattern
        | Form::MadeName
        | Form::StrKey
        | Form::NumberKey
        | Form::EntityKey
        | Form::Path
        | Form::ThisPath
        | Form::Annotation
        | Form::Optional
        | Form::Declare
        | Form::Undeclare
        | Form::Field
        | Form::Method
        | Form::Getter
        | Form::Setter
        | Form::AsyncMethod
        | Form::GeneratorMethod
        | Form::AsyncGeneratorMethod => None,
    }
}

/// Between the parts of a list.
fn between(place: Place) -> Option<Made>
    ensures { result ≡ sign_ahead form.Tuple place }
{
    match place {
        Place::First => None,
        Place::Second | Place::Later => Some(Made::Comma),
    }
}

/// Before the second part.
fn before_second(place: Place) -> Option<Made>
    ensures { result ≡ sign_ahead form.Property place }
{
    match place {
        Place::Second => Some(Made::Colon),
        Place::First | Place::Later => None,
    }
}

/// Before the third part.
fn before_third(place: Place) -> Option<Made>
    ensures { result ≡ sign_ahead form.Function place }
{
    match place {
        Place::Later => Some(Made::Arrow),
        Place::First | Place::Second => None,
    }
}

/// Before the part at this place.
pub fn sign_ahead(form: Form, place: Place) -> Option<Made>
    ensures { result ≡ sign_ahead form place }
{
    match form {
        Form::Tuple | Form::Parameters => between(place),
        Form::Property | Form::ReadonlyProperty | Form::DefaultConst => before_second(place),
        Form::Function => before_third(place),
        Form::Same
        | Form::Element
        | Form::Rest
        | Form::Readonly
        | Form::Typeof
        | Form::Named
        | Form::RegExp
        | Form::Members
        | Form::ReadonlyMember
        | Form::Param
        | Form::RestParam
        | Form::ThisPattern
        | Form::HolePattern
        | Form::Pattern
        | Form::MadeName
        | Form::StrKey
        | Form::NumberKey
        | Form::EntityKey
        | Form::Path
        | Form::ThisPath
        | Form::Annotation
        | Form::Optional
        | Form::Declare
        | Form::Undeclare
        | Form::DefaultName
        | Form::Field
        | Form::Method
        | Form::Getter
        | Form::Setter
        | Form::AsyncMethod
        | Form::GeneratorMethod
        | Form::AsyncGeneratorMethod => None,
    }
}

/// Behind the parts.
pub fn last_sign(form: Form) -> Option<Made>
    ensures { result ≡ last_sign form }
{
    match form {
        Form::Tuple | Form::StrKey | Form::NumberKey | Form::EntityKey => Some(Made::CloseBracket),
        Form::Members => Some(Made::CloseBrace),
        Form::Parameters => Some(Made::CloseParen),
        Form::Same
        | Form::Element
        | Form::Rest
        | Form::Readonly
        | Form::Typeof
        | Form::Named
        | Form::RegExp
        | Form::Property
        | Form::ReadonlyProperty
        | Form::ReadonlyMember
        | Form::Function
        | Form::Param
        | Form::RestParam
        | Form::ThisPattern
        | Form::HolePattern
        | Form::Pattern
        | Form::MadeName
        | Form::Path
        | Form::ThisPath
        | Form::Annotation
        | Form::Optional
        | Form::Declare
        | Form::Undeclare
        | Form::DefaultConst
        | Form::DefaultName
        | Form::Field
        | Form::Method
        | Form::Getter
        | Form::Setter
        | Form::AsyncMethod
        | Form::GeneratorMethod
        | Form::AsyncGeneratorMethod => None,
    }
}

/// Whether `;` and a line end follow it.
pub fn ends_line(form: Form) -> bool
    ensures { result ≡ ends_line form }
{
    match form {
        Form::Property | Form::ReadonlyProperty | Form::DefaultConst => true,
        Form::Same
        | Form::Element
        | Form::Rest
        | Form::Tuple
        | Form::Readonly
        | Form::Typeof
        | Form::Named
        | Form::RegExp
        | Form::Members
        | Form::ReadonlyMember
        | Form::Function
        | Form::Parameters
        | Form::Param
        | Form::RestParam
        | Form::ThisPattern
        | Form::HolePattern
        | Form::Pattern
        | Form::MadeName
        | Form::StrKey
        | Form::NumberKey
        | Form::EntityKey
        | Form::Path
        | Form::ThisPath
        | Form::Annotation
        | Form::Optional
        | Form::Declare
        | Form::Undeclare
        | Form::DefaultName
        | Form::Field
        | Form::Method
        | Form::Getter
        | Form::Setter
        | Form::AsyncMethod
        | Form::GeneratorMethod
        | Form::AsyncGeneratorMethod => false,
    }
}

/// The alternative by which the tokens of a form in the text are printed.
pub fn alternative(form: Form) -> Option<NodeKind>
    ensures { result ≡ alternative form }
{
    match form {
        Form::Named | Form::Path | Form::ThisPath => Some(NodeKind::EntityOfType),
        Form::ThisPattern => Some(NodeKind::NamePatternOfType),
        Form::StrKey => Some(NodeKind::StrKeyOfType),
        Form::NumberKey => Some(NodeKind::NumberKeyOfType),
        Form::Declare | Form::Undeclare => Some(NodeKind::Declared),
        Form::DefaultName => Some(NodeKind::ExportDefaultExpression),
        Form::Field => Some(NodeKind::TypedFieldMember),
        Form::Method => Some(NodeKind::TypedMethodMember),
        Form::Getter | Form::Setter => Some(NodeKind::TypedAccessorMember),
        Form::AsyncMethod | Form::AsyncGeneratorMethod => Some(NodeKind::TypedAsyncMember),
        Form::GeneratorMethod => Some(NodeKind::TypedGeneratorMember),
        Form::Same
        | Form::Element
        | Form::Rest
        | Form::Tuple
        | Form::Readonly
        | Form::Typeof
        | Form::RegExp
        | Form::Members
        | Form::Property
        | Form::ReadonlyProperty
        | Form::ReadonlyMember
        | Form::Function
        | Form::Parameters
        | Form::Param
        | Form::RestParam
        | Form::HolePattern
        | Form::Pattern
        | Form::MadeName
        | Form::EntityKey
        | Form::Annotation
        | Form::Optional
        | Form::DefaultConst => None,
    }
}

/// In what style the parts of any other form are printed.
pub fn style_in(form: Form, here: Style) -> Style
    ensures { result ≡ style_in form here }
{
    match form {
        Form::Same | Form::Pattern => here,
        Form::Members | Form::ReadonlyMember => Style::Types,
        Form::Element
        | Form::Rest
        | Form::Tuple
        | Form::Readonly
        | Form::Typeof
        | Form::Named
        | Form::RegExp
        | Form::Property
        | Form::ReadonlyProperty
        | Form::Function
        | Form::Parameters
        | Form::Param
        | Form::RestParam
        | Form::ThisPattern
        | Form::HolePattern
        | Form::MadeName
        | Form::StrKey
        | Form::NumberKey
        | Form::EntityKey
        | Form::Path
        | Form::ThisPath
        | Form::Annotation
        | Form::Optional
        | Form::Declare
        | Form::Undeclare
        | Form::DefaultConst
        | Form::DefaultName
        | Form::Field
        | Form::Method
        | Form::Getter
        | Form::Setter
        | Form::AsyncMethod
        | Form::GeneratorMethod
        | Form::AsyncGeneratorMethod => Style::Plain,
    }
}
