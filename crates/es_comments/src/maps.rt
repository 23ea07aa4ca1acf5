//! Comments by their places.
ghost use Rattle.std.specs.Prelude.{◌≡◌, [], IfOk, OnOk};
ghost use Rattle.es_comments.specs.Placed.{places_of, placed_in};
ghost use Rattle.es_comments.specs.Steps.{Adds};

use es_token::Comment;
use std::alloc::{AllocError, Global};
use std::collections::BTreeMap;

/// Comments by their places, in bytes of the text.
pub type CommentMap = BTreeMap<usize, Vec<Comment>>;

/// Comments before the token at a place, and those after the token that ends at a place.
#[derive(Debug, Drop)]
pub struct SingleThreadedComments {
    pub leading: CommentMap,
    pub trailing: CommentMap,
}

impl SingleThreadedComments {
    pub fn new(alloc: Global) -> SingleThreadedComments
        ensures leading { places_of result.leading ≡ [] }
        ensures trailing { places_of result.trailing ≡ [] }
    {
        SingleThreadedComments {
            leading: BTreeMap::new(alloc),
            trailing: BTreeMap::new(alloc),
        }
    }

    /// The same comments in memory of their own.
    pub fn copy(&self, alloc: Global) -> Result<SingleThreadedComments, AllocError>
        ensures { IfOk result (λ copy. placed_in copy ≡ placed_in self.now) }
    {
        Ok(SingleThreadedComments {
            leading: copy_map(alloc, &self.leading)?,
            trailing: copy_map(alloc, &self.trailing)?,
        })
    }
}

fn copy_map(alloc: Global, map: &CommentMap) -> Result<CommentMap, AllocError>
    ensures { IfOk result (λ copy. places_of copy ≡ places_of map.now) }
{
    let mut copy = BTreeMap::new(alloc);
    for (place, comments) in map {
        let comments = copy_comments(alloc, comments.as_slice())?;
        drop(copy.insert(*place, comments)?);
    }
    Ok(copy)
}

fn copy_comments(alloc: Global, comments: &[Comment]) -> Result<Vec<Comment>, AllocError>
    ensures { IfOk result (λ copy. copy.items ≡ comments.now) }
{
    let mut copy = Vec::new(alloc);
    for comment in comments {
        copy.push(copy_comment(comment)?)?;
    }
    Ok(copy)
}

/// An equal comment.
pub fn copy_comment(comment: &Comment) -> Result<Comment, AllocError>
    ensures { IfOk result (λ copy. copy ≡ comment.now) }
{
    Ok(Comment {
        kind: comment.kind,
        range: comment.range,
        text: comment.text.copy()?,
    })
}

/// Adds a comment after those at a place.
pub fn add(
    alloc: Global,
    map: &mut CommentMap,
    place: usize,
    comment: Comment,
) -> Result<(), AllocError>
    ensures { OnOk result (Adds map.old map.new place comment) }
{
    if let Some(comments) = map.get_mut(&place) {
        comments.push(comment)?;
        return Ok(());
    }
    let mut comments = Vec::new(alloc);
    comments.push(comment)?;
    drop(map.insert(place, comments)?);
    Ok(())
}
