/// The rows of the types' table.
#[derive(Clone, Copy)]
pub enum TypeRow {
    // A type, where a conditional type is allowed (true) or not.
    TypeRow(bool),
    // The type after `|`, and the one after `&`.
    IntersectionRow,
    OperandRow,
    // Names of types, with arguments and without.
    ReferenceRow,
    EntityRow,
    ImportRow,
    ArgumentsRow,
    TypeParametersRow,
    // A function type after `<<`, whose second half is its own, and its type parameters.
    OpenedFunctionRow,
    OpenedParametersRow,
    // Parts of tuples and of types in braces.
    ElementRow,
    MemberRow,
    KeyRow,
    // The result of a function, where a conditional type is allowed or not.
    ResultRow(bool),
    // Parameters, and the patterns that they hold.
    ParametersRow,
    ParameterRow,
    PatternRow,
    PatternElementRow,
    PatternPropertyRow,
    PatternKeyRow,
}
