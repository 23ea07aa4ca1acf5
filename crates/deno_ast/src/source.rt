//! Parsed sources.
ghost use Rattle.std.specs.Prelude.{◌≡◌, ◌≢◌, ◌++◌, ℕ, List, None, Some, true, not, length, is_some, IfOk, MatchOption};
ghost use Rattle.std.specs.Arc.{arc_value};
ghost use Rattle.std.specs.Option.{option_map, option_copied};
ghost use Rattle.deno_ast.specs.Refs.{tree_of};
ghost use Rattle.es_program.specs.items.Lent.{lent_item};
ghost use Rattle.es_exports.specs.Exports.{exports_of, reexports_of};
ghost use Rattle.cjs_facts.specs.Exports.{AreExports};
ghost use Rattle.deno_ast.specs.Parsed as spec;
ghost use Rattle.es_comments.specs.Standing.{ArePlaced};
ghost use Rattle.deno_ast.specs.Source.{captured as kept};
ghost use Rattle.deno_ast.specs.Steps.{parsed_of};
ghost use Rattle.deno_ast.specs.Scopes.{AreScoped, HasNoToken, NamesIn};

use crate::params::ParseParams;
use crate::program_ref::ProgramRef;
use crate::reading::Reading;
use crate::scopes::{ident_in, ids_if, ids_of};
use base::{Items, Range};
use cjs_exports::analyze_cjs;
use es_comments::{MultiThreadedComments, comments_of};
use es_exports::{ModuleExportsAndReExports, analyze_es_runtime_exports};
use es_program::items::ModuleItemRef;
use es_program::{Form, Program, SharedTokens};
use es_site::Site;
use es_token::{Comment, Token};
use es_variables::{Ident, ScopeIds};
use media_type::MediaType;
use source_sites::{references_in, with_sites};
use source_text::{SourceText, SourceTextInfo};
use std::alloc::{AllocError, Global};
use std::fmt;
use std::marker::Model;
use std::sync::Arc;
use url::Url;

/// What a source exports as a module of CommonJS.
pub type CjsAnalysis = ModuleExportsAndReExports;

/// A source that was parsed: its text, its tree and its comments. Its copies share all of them.
#[derive(Drop)]
pub struct ParsedSource {
    inner: Arc<Source>,
    scopes: Option<ScopeIds>,
}

/// What the copies share.
#[derive(Drop)]
pub struct Source {
    specifier: Url,
    media_type: MediaType,
    text: SourceText,
    info: SourceTextInfo,
    program: Arc<Program>,
    references: Items<Site>,
    comments: MultiThreadedComments,
    tokens: Option<SharedTokens>,
}

impl Model for ParsedSource {
    ghost use Rattle.std.specs.Prelude.{◌≡◌};
    ghost use Rattle.std.specs.Arc.{arc_value};
    ghost use Rattle.std.specs.Coded.{codes};
    ghost use Rattle.es_ast.specs.contracts.ast.ModuleItem as module_item;
    ghost use Rattle.es_ast.specs.contracts.ast.Stmt as stmt;
    ghost use Rattle.es_syntax.specs.contracts.entry.Entry as entry;
    ghost use Rattle.deno_ast.specs.Parsed.{Parsed};
    ghost use Rattle.deno_ast.specs.Kept.{parsed};

    ghost Value = { Parsed };

    ghost coded = { Prim.hlevel (codes, module_item.the_row.coded, stmt.the_row.coded, entry.the_row.coded) };

    ghost view = { λ s. parsed (arc_value s.inner) s.scopes };

    ghost invariant = { λ s. (arc_value s.inner).info ≡ (arc_value s.inner).text };
}

impl ParsedSource {
    pub fn specifier(&self) -> &Url
        ensures { result.now ≡ self.now.specifier }
    {
        &self.inner.specifier
    }

    pub fn media_type(&self) -> MediaType
        ensures { result ≡ self.now.media_type }
    {
        self.inner.media_type
    }

    /// The text without a byte order mark: places count from its start.
    pub fn text(&self) -> &SourceText
        ensures { result.now ≡ self.now.text }
    {
        &self.inner.text
    }

    pub fn text_info_lazy(&self) -> &SourceTextInfo
        ensures { result.now ≡ self.now.text }
    {
        &self.inner.info
    }

    pub fn range(&self) -> Range
        ensures start { result.start ≡ 0 }
        ensures end { result.end ≡ length self.now.text }
    {
        Range {
            start: self.start(),
            end: self.end(),
        }
    }

    pub fn start(&self) -> usize
        ensures { result ≡ 0 }
    {
        0
    }

    pub fn end(&self) -> usize
        ensures { result ≡ length self.now.text }
    {
        self.inner.text.len()
    }

    pub fn program_ref(&self) -> ProgramRef<'_>
        ensures { tree_of result ≡ self.now.tree }
    {
        ProgramRef::of(&self.inner.program)
    }

    /// The tree, which is shared.
    pub fn program(&self) -> Result<Arc<Program>, AllocError>
        ensures { IfOk result (λ program. arc_value program ≡ self.now.tree) }
    {
        self.inner.program.clone()
    }

    /// The comments by the offsets that they are at.
    pub fn comments(&self) -> &MultiThreadedComments
        ensures { result.now ≡ self.now.comments }
    {
        &self.inner.comments
    }

    /// The comments before the first item; with no item, those after the shebang, or those of a text without tokens.
    pub fn get_leading_comments(&self) -> Option<&Vec<Comment>>
        ensures { option_map (λ v. v.now.items) result ≡ spec.leading_comments self.now }
    {
        let program = self.program_ref();
        leading_in(self.comments(), program.first_item(), program.shebang())
    }

    /// The tokens, where they were asked for.
    pub fn tokens(&self) -> &[Token]
        requires { self.now.tokens ≢ None }
        ensures { Some result.now ≡ self.now.tokens }
    {
        match &self.inner.tokens {
            Some(tokens) => tokens.as_slice(),
            None => unreachable!(),
        }
    }

    /// The same source, with the scope numbers of its names.
    pub fn into_with_scope_analysis(self, alloc: Global) -> Result<ParsedSource, AllocError>
        ensures kept { IfOk result (λ s. s ≡ spec.with_scopes self s.scopes) }
        ensures scoped { IfOk result (λ s. AreScoped true self.tree s.scopes) }
        ensures there { IfOk result (λ s. s.scopes ≢ None) }
    {
        let ids = ids_of(alloc, &self.inner.program)?;
        let ParsedSource { inner, scopes } = self;
        let _ = scopes;
        Ok(ParsedSource {
            inner,
            scopes: Some(ids),
        })
    }

    pub fn has_scope_analysis(&self) -> bool
        ensures { result ≡ is_some self.now.scopes }
    {
        self.scopes.is_some()
    }

    /// The scope numbers of names, each by its token, where they were asked for.
    pub fn scope_ids(&self) -> &ScopeIds
        requires { self.now.scopes ≢ None }
        ensures { Some result.now ≡ self.now.scopes }
    {
        match &self.scopes {
            Some(ids) => ids,
            None => unreachable!(),
        }
    }

    /// The number of the scope of the program.
    pub fn top_level_context(&self) -> u32
        requires { self.now.scopes ≢ None }
        ensures { result ≡ 1 }
    {
        1
    }

    /// The number of names that no scope declares.
    pub fn unresolved_context(&self) -> u32
        requires { self.now.scopes ≢ None }
        ensures { result ≡ 0 }
    {
        0
    }

    /// The name that the token of this number is, with the number of the scope that declares it.
    pub fn ident(&self, at: u32) -> Option<Ident<'_>>
        requires { self.now.scopes ≢ None }
        ensures { (numbers : List ℕ) → self.now.scopes ≡ Some numbers
            → MatchOption result (HasNoToken self.now.tree at) (NamesIn self.now.tree numbers at) }
    {
        ident_in(&self.inner.program, self.scope_ids(), at)
    }

    pub fn is_module(&self) -> bool
        ensures { result ≡ not (spec.is_script self.now.tree.typed) }
    {
        !self.is_script()
    }

    pub fn is_script(&self) -> bool
        ensures { result ≡ spec.is_script self.now.tree.typed }
    {
        matches!(self.inner.program.form(), Form::Script(_))
    }

    /// Whether the source is one of CommonJS: `is_script`, but for typed sources what their items say.
    pub fn compute_is_script(&self) -> bool
        ensures { result ≡ spec.computed_is_script self.now }
    {
        if self.inner.media_type.is_typed() {
            self.program_ref().compute_is_script()
        } else {
            self.is_script()
        }
    }

    /// The places where the source names another: reference comments come first, then those of the tree.
    pub fn sites(&self, alloc: Global) -> Result<Items<Site>, AllocError>
        ensures { IfOk result (λ found. found ≡ spec.parsed_sites self.now) }
    {
        let found = copy_sites(alloc, self.inner.references.as_slice())?;
        with_sites(found, copy_sites(alloc, self.inner.program.sites())?)
    }

    /// The names that the source exports as a module of CommonJS, and the modules whose names it exports again: both
    /// ascending by bytes, each once, without getters that may do something. A module of ECMAScript is read in the same way.
    pub fn analyze_cjs(&self, alloc: Global) -> Result<CjsAnalysis, AllocError>
        ensures { IfOk result (λ it. AreExports self.now.tree.typed it.exports it.reexports) }
    {
        analyze_cjs(alloc, &self.inner.program)
    }

    /// The names that the source exports at run time, and the modules whose names it exports again, in the order of its
    /// items; a script has none.
    pub fn analyze_es_runtime_exports(
        &self,
        alloc: Global,
    ) -> Result<ModuleExportsAndReExports, AllocError>
        ensures exports { IfOk result (λ it. it.exports ≡ exports_of self.now.tree.typed) }
        ensures reexports { IfOk result (λ it. it.reexports ≡ reexports_of self.now.tree.typed) }
    {
        analyze_es_runtime_exports(alloc, &self.inner.program)
    }

    /// One more reference to the same source.
    pub fn copy(&self) -> Result<ParsedSource, AllocError>
        ensures { IfOk result (λ copy. copy ≡ self.now) }
    {
        Ok(ParsedSource {
            inner: self.inner.clone()?,
            scopes: copy_ids(&self.scopes)?,
        })
    }
}

/// Its specifier and its text.
impl fmt::Debug for ParsedSource {
    fn fmt<W: fmt::Write>(&self, f: &mut fmt::Formatter<W>) -> fmt::Result {
        fmt::Debug::fmt(self.specifier(), f)?;
        f.write_str(" ")?;
        fmt::Debug::fmt(self.text(), f)
    }
}

fn copy_ids(ids: &Option<ScopeIds>) -> Result<Option<ScopeIds>, AllocError>
    ensures { IfOk result (λ copy. copy ≡ ids.now) }
{
    match ids {
        Some(ids) => Ok(Some(ids.copy()?)),
        None => Ok(None),
    }
}

// The comments at the first item; with no item, those after the shebang, or those at 0.
fn leading_in<'a>(
    comments: &'a MultiThreadedComments,
    first: Option<ModuleItemRef<'_>>,
    shebang: Option<&str>,
) -> Option<&'a Vec<Comment>>
    ensures { option_map (λ v. v.now.items) result
        ≡ spec.leading_by comments.now (option_map lent_item first.entry) (option_copied shebang.entry) }
{
    match (first, shebang) {
        (Some(item), _) => comments.get_leading(item.span().start),
        (None, Some(text)) => comments.get_trailing(text.len() + 2),
        (None, None) => comments.get_leading(0),
    }
}

fn copy_sites(alloc: Global, found: &[Site]) -> Result<Items<Site>, AllocError>
    ensures { IfOk result (λ copy. copy ≡ found.now) }
{
    let mut copy = Items::new(alloc);
    for site in found {
        copy.push(copy_site(site)?)?;
    }
    Ok(copy)
}

fn copy_site(site: &Site) -> Result<Site, AllocError>
    ensures { IfOk result (λ copy. copy ≡ site.now) }
{
    Ok(Site {
        kind: site.kind,
        type_only: site.type_only,
        range: site.range,
        value: site.value.copy()?,
        attribute: site.attribute.copy()?,
    })
}

/// The source of what was read.
pub fn source_of(
    alloc: Global,
    params: ParseParams,
    reading: Reading,
) -> Result<ParsedSource, AllocError>
    ensures kept { IfOk result (λ s. s ≡ parsed_of params reading s.comments s.scopes) }
    ensures scoped { IfOk result (λ s. AreScoped params.scope_analysis reading.program s.scopes) }
    ensures placed { IfOk result (λ s. ArePlaced params.text reading.tokens reading.comments s.comments) }
{
    let Reading {
        program,
        tokens,
        comments,
    } = reading;
    let references = references_in(
        alloc,
        params.media_type,
        tokens.as_slice(),
        comments.as_slice(),
    )?;
    let comments = shared_comments(alloc, params.text.as_str(), tokens.as_slice(), &comments)?;
    let scopes = ids_if(alloc, params.scope_analysis, &program)?;
    let source = Source {
        info: SourceTextInfo::new(alloc, params.text.copy()?)?,
        specifier: params.specifier,
        media_type: params.media_type,
        text: params.text,
        program: Arc::new(alloc, program)?,
        references,
        comments,
        tokens: captured(params.capture_tokens, tokens),
    };
    Ok(ParsedSource {
        inner: Arc::new(alloc, source)?,
        scopes,
    })
}

fn shared_comments(
    alloc: Global,
    text: &str,
    tokens: &[Token],
    comments: &Items<Comment>,
) -> Result<MultiThreadedComments, AllocError>
    ensures { IfOk result (ArePlaced text.now tokens.now comments.now) }
{
    let placed = comments_of(alloc, text, tokens, comments.as_slice())?;
    MultiThreadedComments::from_single_threaded(alloc, placed)
}

fn captured(capture: bool, tokens: SharedTokens) -> Option<SharedTokens>
    ensures { result ≡ kept capture tokens }
{
    if capture { Some(tokens) } else { None }
}
