//! Comments that are shared.
ghost use Rattle.std.specs.Prelude.{◌≡◌, ◌++◌, IfOk, OnOk, is_some};
ghost use Rattle.std.specs.Option.{option_map};
ghost use Rattle.std.specs.List.Sorted.{IsPermutation, IsNonDecreasingBy};
ghost use Rattle.es_comments.specs.Placed.{places_of, placed_in, comments_at, listed, all_of};
ghost use Rattle.es_comments.specs.Iterators.{comments_left};

use crate::maps::{CommentMap, SingleThreadedComments, copy_comment};
use es_token::Comment;
use std::alloc::{AllocError, Global};
use std::collections::btree_map;
use std::marker::Model;
use std::slice;
use std::sync::Arc;

/// The comments of a text, shared by their copies, which may be made in any thread.
#[derive(Debug, Drop)]
pub struct MultiThreadedComments {
    inner: Arc<SingleThreadedComments>,
}

impl Model for MultiThreadedComments {
    ghost use Rattle.std.specs.Arc.{arc_value};
    ghost use Rattle.es_comments.specs.Placed.{Placed, placed_in};

    ghost Value = { Placed };

    ghost view = { λ comments. placed_in (arc_value comments.inner) };
}

impl MultiThreadedComments {
    pub fn from_single_threaded(
        alloc: Global,
        comments: SingleThreadedComments,
    ) -> Result<MultiThreadedComments, AllocError>
        ensures { IfOk result (λ shared. shared ≡ placed_in comments) }
    {
        Ok(MultiThreadedComments {
            inner: Arc::new(alloc, comments)?,
        })
    }

    pub fn from_leading_and_trailing(
        alloc: Global,
        leading: CommentMap,
        trailing: CommentMap,
    ) -> Result<MultiThreadedComments, AllocError>
        ensures { IfOk result (λ shared. (shared.leading ≡ places_of leading) × (shared.trailing ≡ places_of trailing)) }
    {
        MultiThreadedComments::from_single_threaded(
            alloc,
            SingleThreadedComments { leading, trailing },
        )
    }

    /// One more reference to the same comments.
    pub fn copy(&self) -> Result<MultiThreadedComments, AllocError>
        ensures { IfOk result (λ copy. copy ≡ self.now) }
    {
        Ok(MultiThreadedComments {
            inner: self.inner.clone()?,
        })
    }

    /// A copy of the two maps.
    pub fn as_single_threaded(&self, alloc: Global) -> Result<SingleThreadedComments, AllocError>
        ensures { IfOk result (λ maps. placed_in maps ≡ self.now) }
    {
        self.inner.copy(alloc)
    }

    /// The two maps. Not promised: that they aren't copied where nothing else refers to them.
    pub fn into_single_threaded(self, alloc: Global) -> Result<SingleThreadedComments, AllocError>
        ensures { IfOk result (λ maps. placed_in maps ≡ self) }
    {
        let MultiThreadedComments { inner } = self;
        match Arc::try_unwrap(inner) {
            Ok(comments) => Ok(comments),
            Err(shared) => shared.copy(alloc),
        }
    }

    /// All comments by where they start in the text.
    pub fn get_vec(&self, alloc: Global) -> Result<Vec<Comment>, AllocError>
        ensures all { IfOk result (λ sorted. IsPermutation (all_of self.now) sorted.items) }
        ensures by_place { IfOk result (λ sorted. IsNonDecreasingBy (λ c. c.range.start) sorted.items) }
    {
        let mut all = Vec::new(alloc);
        add_all(&mut all, &self.inner.leading)?;
        add_all(&mut all, &self.inner.trailing)?;
        all.sort_by_key(|comment| comment.range.start)?;
        Ok(all)
    }

    pub fn leading_map(&self) -> &CommentMap
        ensures { places_of result.now ≡ self.now.leading }
    {
        &self.inner.leading
    }

    pub fn trailing_map(&self) -> &CommentMap
        ensures { places_of result.now ≡ self.now.trailing }
    {
        &self.inner.trailing
    }

    /// All comments: the leading ones, then the trailing ones.
    pub fn iter_unstable(&self) -> CommentsIter<'_>
        ensures { comments_left result ≡ all_of self.now }
    {
        CommentsIter {
            leading: self.inner.leading.values(),
            trailing: self.inner.trailing.values(),
            now: [].iter(),
        }
    }

    pub fn has_leading(&self, pos: usize) -> bool
        ensures { result ≡ is_some (comments_at self.now.leading pos) }
    {
        self.inner.leading.contains_key(&pos)
    }

    /// The comments before the token that starts here.
    pub fn get_leading(&self, pos: usize) -> Option<&Vec<Comment>>
        ensures { option_map (λ v. v.now.items) result ≡ comments_at self.now.leading pos }
    {
        self.inner.leading.get(&pos)
    }

    pub fn has_trailing(&self, pos: usize) -> bool
        ensures { result ≡ is_some (comments_at self.now.trailing pos) }
    {
        self.inner.trailing.contains_key(&pos)
    }

    /// The comments after the token that ends here.
    pub fn get_trailing(&self, pos: usize) -> Option<&Vec<Comment>>
        ensures { option_map (λ v. v.now.items) result ≡ comments_at self.now.trailing pos }
    {
        self.inner.trailing.get(&pos)
    }
}

fn add_all(all: &mut Vec<Comment>, map: &CommentMap) -> Result<(), AllocError>
    ensures { OnOk result (all.new.items ≡ all.old.items ++ listed (places_of map.now)) }
{
    for comments in map.values() {
        add_copies(all, comments.as_slice())?;
    }
    Ok(())
}

fn add_copies(all: &mut Vec<Comment>, comments: &[Comment]) -> Result<(), AllocError>
    ensures { OnOk result (all.new.items ≡ all.old.items ++ comments.now) }
{
    for comment in comments {
        all.push(copy_comment(comment)?)?;
    }
    Ok(())
}

/// The comments of a text, one by one.
#[derive(Drop)]
pub struct CommentsIter<'a> {
    leading: btree_map::Values<'a, usize, Vec<Comment>>,
    trailing: btree_map::Values<'a, usize, Vec<Comment>>,
    now: slice::Iter<'a, Comment>,
}

impl<'a> Iterator for CommentsIter<'a> {
    type Item = &'a Comment;

    ghost use Rattle.std.specs.Iterator.{YieldsFirstRef, item_count};
    ghost use Rattle.es_comments.specs.Iterators.{comments_left};

    ghost next_gives = { YieldsFirstRef comments_left };

    ghost remaining = { item_count comments_left };

    fn next(&mut self) -> Option<&'a Comment> {
        loop {
            if let Some(comment) = self.now.next() {
                return Some(comment);
            }
            let comments = match self.leading.next() {
                Some(comments) => comments,
                None => self.trailing.next()?,
            };
            self.now = comments.iter();
        }
    }
}
