//! What an expression looks like.

ghost use Rattle.std.specs.Prelude.{◌≡◌, ℕ, List};
ghost use Rattle.es_token.specs.declared.token.Token.{Token as Tok};
ghost use Rattle.cjs_facts.specs.Looks.{bracket, object_of as object_by, required_by, passed};
ghost use Rattle.cjs_looks.specs.Seen.{key_of, object_of, look_of};

/// What a member is named by. Numbers are those of tokens.
#[derive(Clone, Copy)]
pub enum Key {
    /// `.a`
    Dotted(u32),
    /// `["a"]`
    Quoted(u32),
    /// `[a]`
    Keyed(u32),
    Odd,
}

/// What a member is taken of: `a`, `a.b`, or something else.
#[derive(Clone, Copy)]
pub enum Object {
    One(u32),
    Within(u32, Key),
    Odd,
}

/// What an expression looks like: a name, a string literal, a member without `?.`, a call that requires a module.
#[derive(Clone, Copy)]
pub enum Look {
    Named(u32),
    Text(u32),
    Member(Object, Key),
    Requires(u32),
    Other,
}

impl Look {
    /// As what a member is taken of.
    #[tactic(auto, using(crate::proofs::Keys::object_text, crate::proofs::Keys::object_required))]
    pub fn object(self) -> Object
        ensures { (x : List ℕ) (ts : List Tok) → object_of x ts result ≡ object_by (look_of x ts self) }
    {
        match self {
            Look::Named(name) => Object::One(name),
            Look::Member(Object::One(name), key) => Object::Within(name, key),
            Look::Member(Object::Within(_, _), _) => Object::Odd,
            Look::Member(Object::Odd, _) => Object::Odd,
            Look::Text(_) => Object::Odd,
            Look::Requires(_) => Object::Odd,
            Look::Other => Object::Odd,
        }
    }

    /// As the key in brackets after an object.
    #[tactic(auto, using(crate::proofs::Keys::bracket_required))]
    pub fn key(self) -> Key
        ensures { (x : List ℕ) (ts : List Tok) → key_of x ts result ≡ bracket (look_of x ts self) }
    {
        match self {
            Look::Named(name) => Key::Keyed(name),
            Look::Text(text) => Key::Quoted(text),
            Look::Member(_, _) => Key::Odd,
            Look::Requires(_) => Key::Odd,
            Look::Other => Key::Odd,
        }
    }

    /// As the argument of `require`.
    #[tactic(auto, using(crate::proofs::Keys::required_twice))]
    pub fn required(self) -> Look
        ensures { (x : List ℕ) (ts : List Tok) → look_of x ts result ≡ required_by (look_of x ts self) }
    {
        match self {
            Look::Text(text) => Look::Requires(text),
            Look::Named(_) => Look::Other,
            Look::Member(_, _) => Look::Other,
            Look::Requires(_) => Look::Other,
            Look::Other => Look::Other,
        }
    }

    /// As the argument of `_interopRequireWildcard`.
    #[tactic(auto, using(crate::proofs::Keys::passed_text, crate::proofs::Keys::passed_required))]
    pub fn passed(self) -> Look
        ensures { (x : List ℕ) (ts : List Tok) → look_of x ts result ≡ passed (look_of x ts self) }
    {
        match self {
            Look::Requires(text) => Look::Requires(text),
            Look::Named(_) => Look::Other,
            Look::Member(_, _) => Look::Other,
            Look::Text(_) => Look::Other,
            Look::Other => Look::Other,
        }
    }
}
