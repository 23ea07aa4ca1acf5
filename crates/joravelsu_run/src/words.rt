//! The arguments of the program.
ghost use Rattle.std.specs.Prelude.{◌≡◌, [], ◌∷◌, MatchOption, map, string_bytes};
ghost use Rattle.joravelsu_run.specs.Words.{IsForm, IsNoForm};

/// A form of the program.
#[derive(Clone, Copy)]
pub enum Form {
    /// `build`: the report of the bundle that is read.
    Build,
    /// `order`: the order of its modules, or a cycle of them.
    Order,
    /// `groups`: the groups of its modules that import each other, in order.
    Groups,
    /// `why`: a shortest way to the specifier that is read with it.
    Why,
    /// `gone`: what is gone without the entry or edge that is read with it.
    Gone,
    /// `faults`: what is wrong with the texts of its modules.
    Faults,
    /// `policy`: what the rules that are read with it say of its graph.
    Policy,
    /// `declarations`: the declarations of its modules.
    Declarations,
}

/// The form of the program that the arguments are.
pub fn form_of(words: &[String]) -> Option<Form>
    ensures { MatchOption result (IsNoForm (map string_bytes words.now)) (λ form. IsForm form (map string_bytes words.now)) }
{
    match words {
        [word] => plain_form(word.as_str()),
        _ => None,
    }
}

fn plain_form(word: &str) -> Option<Form>
    ensures { MatchOption result (IsNoForm (word.now ∷ [])) (λ form. IsForm form (word.now ∷ [])) }
{
    match word {
        "build" => Some(Form::Build),
        "order" => Some(Form::Order),
        "groups" => Some(Form::Groups),
        "why" => Some(Form::Why),
        "gone" => Some(Form::Gone),
        "faults" => Some(Form::Faults),
        "policy" => Some(Form::Policy),
        "declarations" => Some(Form::Declarations),
        _ => None,
    }
}
