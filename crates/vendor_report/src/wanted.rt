//! The options that a vendored bundle keeps.
ghost use Rattle.std.specs.Prelude.{◌≡◌};
ghost use Rattle.vendor_report.specs.Plans as spec;

use graph_builder::BuildOptions;
use graph_entry::GraphKind;

/// The options of a bundle that the one of its files has, too.
#[derive(Clone, Copy)]
pub struct Wanted {
    pub kind: GraphKind,
    pub limit: usize,
    pub skip_dynamic_deps: bool,
}

/// What a bundle with these options keeps: all but what places outside import.
pub fn wanted_of(options: &BuildOptions) -> Wanted
    ensures { result ≡ spec.wanted_of options.now }
{
    Wanted {
        kind: options.kind,
        limit: options.limit,
        skip_dynamic_deps: options.skip_dynamic_deps,
    }
}
