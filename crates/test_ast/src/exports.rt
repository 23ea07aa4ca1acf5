//! What parsed sources export.

use crate::parsed::params;
use base::Text;
use deno_ast::{MediaType, ModuleExportsAndReExports, ParsedSource, parse_program};
use std::alloc::{AllocError, Global};

/// A source, what it exports at run time, and what it exports as a module of CommonJS.
const ROWS: &[(&str, &str, &str)] = &[
    (
        "export { z } from \"./o.js\"; export const [p, q] = r; export * from \"./a.js\";",
        "names z p q, again ./a.js",
        "names, again",
    ),
    (
        "module.exports = require(\"./a\"); exports.b = 1; module.exports = require(\"./c\");",
        "names, again",
        "names b, again ./c",
    ),
];

fn add_names(line: &mut String, names: &[Text]) -> Result<(), AllocError> {
    for name in names {
        line.push_str(" ")?;
        line.push_str(name.as_str())?;
    }
    Ok(())
}

fn line_of(alloc: Global, found: &ModuleExportsAndReExports) -> Result<String, AllocError> {
    let mut line = String::from_str(alloc, "names")?;
    add_names(&mut line, found.exports.as_slice())?;
    line.push_str(", again")?;
    add_names(&mut line, found.reexports.as_slice())?;
    Ok(line)
}

fn at_run_time(alloc: Global, parsed: &ParsedSource) -> Result<String, AllocError> {
    line_of(alloc, &parsed.analyze_es_runtime_exports(alloc)?)
}

fn as_common_js(alloc: Global, parsed: &ParsedSource) -> Result<String, AllocError> {
    line_of(alloc, &parsed.analyze_cjs(alloc)?)
}

#[test]
fn exports(rt: HostRuntime) {
    for (text, names, common_js) in ROWS.iter() {
        let params = params(rt.alloc(), MediaType::JavaScript, text, None).expect(&rt, "memory");
        let parsed = parse_program(rt.alloc(), params).expect(&rt, "a program");
        let got = at_run_time(rt.alloc(), &parsed).expect(&rt, "memory");
        assert_eq!(rt; got.as_str(), *names);
        let got = as_common_js(rt.alloc(), &parsed).expect(&rt, "memory");
        assert_eq!(rt; got.as_str(), *common_js);
    }
}
