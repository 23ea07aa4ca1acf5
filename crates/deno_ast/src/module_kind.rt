//! The two kinds of modules of JavaScript.
ghost use Rattle.std.specs.Prelude.{◌≡◌, ◌↔◌, IsTrue, if◌then◌else◌};

/// A module of the language, or one of CommonJS.
#[derive(Clone, Copy, Debug, PartialEq, Eq, PartialOrd, Ord, Hash)]
pub enum ModuleKind {
    Esm,
    Cjs,
}

impl ModuleKind {
    pub fn from_is_cjs(is_cjs: bool) -> ModuleKind
        ensures { result ≡ (if is_cjs then ModuleKind.Cjs else ModuleKind.Esm) }
    {
        if is_cjs {
            ModuleKind::Cjs
        } else {
            ModuleKind::Esm
        }
    }

    pub fn from_is_esm(is_esm: bool) -> ModuleKind
        ensures { result ≡ (if is_esm then ModuleKind.Esm else ModuleKind.Cjs) }
    {
        ModuleKind::from_is_cjs(!is_esm)
    }

    pub fn is_cjs(self) -> bool
        ensures { IsTrue result ↔ (self ≡ ModuleKind.Cjs) }
    {
        matches!(self, ModuleKind::Cjs)
    }

    pub fn is_esm(self) -> bool
        ensures { IsTrue result ↔ (self ≡ ModuleKind.Esm) }
    {
        matches!(self, ModuleKind::Esm)
    }
}
