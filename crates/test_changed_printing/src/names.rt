//! Forms, alternatives and words by their names.

use es_changed::{Change, Form, Word};
use es_grammar::NodeKind;
use es_syntax::What;

pub fn form_of(name: &str) -> Option<Form> {
    let form = match name {
        "Same" => Form::Same,
        "Element" => Form::Element,
        "Rest" => Form::Rest,
        "Tuple" => Form::Tuple,
        "Readonly" => Form::Readonly,
        "Typeof" => Form::Typeof,
        "Named" => Form::Named,
        "RegExp" => Form::RegExp,
        "Members" => Form::Members,
        "Property" => Form::Property,
        "ReadonlyProperty" => Form::ReadonlyProperty,
        "ReadonlyMember" => Form::ReadonlyMember,
        "Function" => Form::Function,
        "Parameters" => Form::Parameters,
        "Param" => Form::Param,
        "RestParam" => Form::RestParam,
        "ThisPattern" => Form::ThisPattern,
        "HolePattern" => Form::HolePattern,
        "Pattern" => Form::Pattern,
        "MadeName" => Form::MadeName,
        "StrKey" => Form::StrKey,
        "NumberKey" => Form::NumberKey,
        "EntityKey" => Form::EntityKey,
        "Path" => Form::Path,
        "ThisPath" => Form::ThisPath,
        "Annotation" => Form::Annotation,
        "Optional" => Form::Optional,
        "Declare" => Form::Declare,
        "Undeclare" => Form::Undeclare,
        "DefaultConst" => Form::DefaultConst,
        "DefaultName" => Form::DefaultName,
        "Field" => Form::Field,
        "Method" => Form::Method,
        "Getter" => Form::Getter,
        "Setter" => Form::Setter,
        "AsyncMethod" => Form::AsyncMethod,
        "GeneratorMethod" => Form::GeneratorMethod,
        "AsyncGeneratorMethod" => Form::AsyncGeneratorMethod,
        _ => return None,
    };
    Some(form)
}

fn label_of(name: &str) -> Option<NodeKind> {
    let label = match name {
        "TypedDeclarator" => NodeKind::TypedDeclarator,
        "TypedFunction" => NodeKind::TypedFunction,
        "TypedSignature" => NodeKind::TypedSignature,
        "Parameters" => NodeKind::Parameters,
        "TypedParameters" => NodeKind::TypedParameters,
        "MarkedParameter" => NodeKind::MarkedParameter,
        "TypedMethodMember" => NodeKind::TypedMethodMember,
        "TypedFieldMember" => NodeKind::TypedFieldMember,
        "VariableDeclaration" => NodeKind::VariableDeclaration,
        "Variables" => NodeKind::Variables,
        "WordKeyOfType" => NodeKind::WordKeyOfType,
        "StrKeyOfType" => NodeKind::StrKeyOfType,
        "StrType" => NodeKind::StrType,
        "NumberType" => NodeKind::NumberType,
        "WordType" => NodeKind::WordType,
        "NamePattern" => NodeKind::NamePattern,
        "NamePatternOfType" => NodeKind::NamePatternOfType,
        "NamePropertyOfType" => NodeKind::NamePropertyOfType,
        "ObjectPatternOfType" => NodeKind::ObjectPatternOfType,
        "ArrayPatternOfType" => NodeKind::ArrayPatternOfType,
        "Entity" => NodeKind::Entity,
        "ComputedKey" => NodeKind::ComputedKey,
        "StrKey" => NodeKind::StrKey,
        "NumberKey" => NodeKind::NumberKey,
        "Declared" => NodeKind::Declared,
        "DeclaredVariables" => NodeKind::DeclaredVariables,
        "Name" => NodeKind::Name,
        "WordKey" => NodeKind::WordKey,
        _ => return None,
    };
    Some(label)
}

pub fn word_of(name: &str) -> Option<Word> {
    let word = match name {
        "any" => Word::Any,
        "string" => Word::String,
        "number" => Word::Number,
        "boolean" => Word::Boolean,
        "bigint" => Word::BigInt,
        "undefined" => Word::Undefined,
        "null" => Word::Null,
        _ => return None,
    };
    Some(word)
}

/// A form, `parts` for a group, or `:` before the name of an alternative.
pub fn change_of(name: &str) -> Option<Change> {
    if name == "parts" {
        return Some(Change::Old(What::Parts));
    }
    match name.strip_prefix(":") {
        Some(label) => Some(Change::Old(What::Node(label_of(label)?))),
        None => Some(Change::Form(form_of(name)?)),
    }
}
