//! How the back links of a file change.
ghost use Rattle.std.specs.Prelude.{◌≡◌, ◌<◌, ◌&&◌, not, IfOk, IfSome, None, Some, drop, ◌∷◌, [], if◌then◌else◌};
ghost use Rattle.std.specs.List.{list_any};
ghost use Rattle.nofs_history.specs.Machine as machine;
ghost use Rattle.nofs_inode.specs.InodeRecords.{is_empty_link};
ghost use Rattle.nofs_history.specs.Search.{first_of};
ghost use Rattle.nofs_model.specs.Files as files;
ghost use Rattle.nofs_history.specs.Accepted.Files.{file_of, kept_files_of};

use crate::accepted::files::file::{FileNow, FilesNow};
use crate::accepted::files::names::same_link;
use nofs_inode::inode::BackLink;
use std::alloc::{AllocError, Global};

/// A back link, or an empty place where it is the one that goes.
fn kept_link(link: &BackLink, gone: &BackLink) -> BackLink
    ensures { result ≡ (if machine.same_link link.now gone.now then machine.link_to 0 0 0 else link.now) }
{
    if same_link(link, gone) {
        BackLink::EMPTY
    } else {
        *link
    }
}

/// These links without one.
pub(crate) fn without_link(links: &[BackLink; 4], gone: &BackLink) -> [BackLink; 4]
    ensures { result ≡ machine.without_link gone.now links.now }
{
    [
        kept_link(&links[0], gone),
        kept_link(&links[1], gone),
        kept_link(&links[2], gone),
        kept_link(&links[3], gone),
    ]
}

/// These links with another one at a place.
pub(crate) fn with_link(links: [BackLink; 4], place: usize, link: BackLink) -> [BackLink; 4]
    requires { place < 4 }
    ensures { result ≡ machine.set_link links place link }
{
    let mut links = links;
    links[place] = link;
    links
}

/// The first empty place of these links, from a place on.
#[tactic(auto, using(crate::proofs::OnAccepted::LinkLists::place_none, //
crate::proofs::OnAccepted::LinkLists::place_here, crate::proofs::OnAccepted::LinkLists::place_next))]
fn empty_from(links: &[BackLink; 4], at: usize) -> Option<usize>
    ensures place { result ≡ machine.place_for_link is_empty_link (drop at links.now) at }
    ensures range { IfSome result (λ b. b < 4) }
{
    if at >= 4 {
        return None;
    }
    if links[at].directory == 0 {
        return Some(at);
    }
    empty_from(links, at + 1)
}

impl FilesNow {
    /// Whether one of these links, from a place on, is a pair.
    #[tactic(auto, using(crate::proofs::OnAccepted::LinkLists::any_none, //
    crate::proofs::OnAccepted::LinkLists::any_next))]
    fn pairs_from(
        &self,
        alloc: Global,
        inode: u32,
        links: &[BackLink; 4],
        at: usize,
    ) -> Result<bool, AllocError>
        ensures { IfOk result
            (λ is. is ≡ list_any (λ l. files.is_pair (kept_files_of self.now) inode l) (drop at links.now)) }
    {
        if at >= 4 {
            return Ok(false);
        }
        if self.is_pair(alloc, inode, &links[at])? {
            return Ok(true);
        }
        self.pairs_from(alloc, inode, links, at + 1)
    }

    /// The first of these links, from a place on, that is no pair.
    #[tactic(auto, using(crate::proofs::OnAccepted::LinkLists::place_none, //
    crate::proofs::OnAccepted::LinkLists::place_here, crate::proofs::OnAccepted::LinkLists::place_next))]
    fn dead_link(
        &self,
        alloc: Global,
        inode: u32,
        links: &[BackLink; 4],
        at: usize,
    ) -> Result<Option<usize>, AllocError>
        ensures range { IfOk result (λ place. IfSome place (λ b. b < 4)) }
        ensures place { IfOk result (λ place. place
            ≡ machine.place_for_link (λ link. not (files.is_pair (kept_files_of self.now) inode link))
            (drop at links.now) at) }
    {
        if at >= 4 {
            return Ok(None);
        }
        if !self.is_pair(alloc, inode, &links[at])? {
            return Ok(Some(at));
        }
        self.dead_link(alloc, inode, links, at + 1)
    }

    fn place_in(
        &self,
        alloc: Global,
        inode: u32,
        file: &FileNow,
    ) -> Result<Option<usize>, AllocError>
        ensures range { IfOk result (λ place. IfSome place (λ b. b < 4)) }
        ensures place { IfOk result
            (λ place. place ≡ first_of (machine.place_for_link is_empty_link (file_of file.now).links 0
            ∷ machine.place_for_link (λ link. not (files.is_pair (kept_files_of self.now) inode link))
            (file_of file.now).links 0 ∷ [])) }
    {
        match empty_from(&file.links, 0) {
            Some(place) => Ok(Some(place)),
            None => self.dead_link(alloc, inode, &file.links, 0),
        }
    }

    /// Where a new back link of an inode goes; `None` where it has no room.
    #[tactic(auto, unfolding(crate::specs::Machine::link_place))]
    pub fn link_place(&self, alloc: Global, inode: u32) -> Result<Option<usize>, AllocError>
        ensures range { IfOk result (λ place. IfSome place (λ b. b < 4)) }
        ensures place { IfOk result (λ place. place ≡ machine.link_place (kept_files_of self.now) inode) }
    {
        if inode == 2 {
            return Ok(None);
        }
        match self.file(inode) {
            None => Ok(None),
            Some(file) => self.place_in(alloc, inode, file),
        }
    }

    /// Whether a file is gone once this back link is cleared.
    pub fn is_last(&self, alloc: Global, inode: u32, link: &BackLink) -> Result<bool, AllocError>
        ensures { IfOk result (λ is. is ≡ (not (files.is_special inode)
            && not (list_any (λ l. files.is_pair (kept_files_of self.now) inode l)
            (machine.without_link link.now (files.links_of (kept_files_of self.now) inode))))) }
    {
        if inode == 1 || inode == 2 {
            return Ok(false);
        }
        match self.file(inode) {
            None => Ok(true),
            Some(file) => Ok(!self.pairs_from(alloc, inode, &without_link(&file.links, link), 0)?),
        }
    }
}
