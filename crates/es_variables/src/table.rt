//! Names and variables by their spellings.

ghost use Rattle.std.specs.Prelude.{◌≡◌, ◌++◌, ◌==◌, Some, None, false, ℕ, List, string_bytes, bytes_eq, OnOk, MatchOption};
ghost use Rattle.std.specs.BTreeMap.{get};
ghost use Rattle.std.specs.Ordering.{nat_cmp};
ghost use Rattle.es_variables.specs.Table.{ids_at, var_at, extra};

use crate::scope_analysis::{Id, Var};
use std::alloc::AllocError;
use std::collections::{BTreeMap, HashMap};

/// Names by their spellings.
pub type Ids = HashMap<String, Vec<Id>>;

/// Variables by spellings, and by the numbers of scopes.
pub type Vars = HashMap<String, BTreeMap<u32, Var>>;

/// One name more at a key.
pub fn add_id(ids: &mut Ids, key: String, id: Id) -> Result<(), AllocError>
    ensures { OnOk result ((q : List ℕ) → ids_at ids.new q ≡ ids_at ids.old q ++ extra (string_bytes key) id q) }
{
    ids.entry(key)?.or_default().push(id)?;
    Ok(())
}

/// Another variable at a number.
fn put_number(found: &mut BTreeMap<u32, Var>, number: u32, var: Var) -> Result<(), AllocError>
    ensures own { OnOk result (get nat_cmp found.new number ≡ Some var) }
    ensures others { OnOk result ((n : ℕ) → (number == n) ≡ false → get nat_cmp found.new n ≡ get nat_cmp found.old n) }
{
    found.insert(number, var)?;
    Ok(())
}

/// Another variable at a key and a number.
pub fn put_var(vars: &mut Vars, key: String, number: u32, var: Var) -> Result<(), AllocError>
    ensures own { OnOk result (var_at vars.new (string_bytes key) number ≡ Some var) }
    ensures beside { OnOk result ((n : ℕ) → (number == n) ≡ false → var_at vars.new (string_bytes key) n ≡ var_at vars.old (string_bytes key) n) }
    ensures others { OnOk result ((q : List ℕ) → bytes_eq (string_bytes key) q ≡ false → (n : ℕ) → var_at vars.new q n ≡ var_at vars.old q n) }
{
    put_number(vars.entry(key)?.or_default(), number, var)
}

/// The names at a spelling.
pub fn ids_of<'a>(ids: &'a Ids, sym: &str) -> &'a [Id]
    ensures { result.now ≡ ids_at ids.now sym.now }
{
    match ids.get(sym) {
        Some(found) => found.as_slice(),
        None => &[],
    }
}

/// The variable at a spelling and a number.
pub fn var_of<'a>(vars: &'a Vars, sym: &str, number: u32) -> Option<&'a Var>
    ensures { MatchOption result (var_at vars.now sym.now number ≡ None) (λ v. var_at vars.now sym.now number ≡ Some v.now) }
{
    match vars.get(sym) {
        Some(found) => found.get(&number),
        None => None,
    }
}
