//! Asks answered where the versions of files are compared first.

ghost use Rattle.iiif_peer_wire.specs.Messages.{IsAsk, IsReply};
ghost use Rattle.iiif_peer_versions.specs.Keys.{RepliesIn, RepliesToVersion};
ghost use Rattle.iiif_peer_versions.specs.Told.{told, told_by};

use crate::file_versions::FileVersions;
use iiif_fault::Numbered;
use iiif_keys::Fault;
use iiif_peer_wire::{Answers, Ask};
use std::alloc::Global;

/// Listener for asks for other versions of files.
pub trait Notice<R> {
    /// Takes in that another version of the file of an image of this name was asked for.
    fn report_other(&self, rt: &R, name: &str);
}

/// Service that compares versions of files, over one that answers keys as they are. Where versions of images' files are known, each key has
/// its image's behind the name: it is stripped where it is the one that is known, and else the name is unknown, and the listener is told.
#[derive(Drop)]
pub struct Compared<'a, A, V> {
    pub service: &'a A,
    pub versions: Option<&'a FileVersions>,
    pub notice: &'a V,
}

impl<'a, A, V> Compared<'a, A, V> {
    /// Tells the listener of an ask that gets no value, where it is one for another version of an image's file.
    fn tell_other<R>(&self, rt: &R, versions: &FileVersions, ask: &Ask)
    where
        V: Notice<R>,
    {
        if let Some(name) = versions.known_name(ask.key.as_slice()) {
            self.notice.report_other(rt, name);
        }
    }

    /// Returns the reply to an ask whose key has a version.
    fn answer_version<R, P>(
        &self,
        rt: &R,
        alloc: Global,
        passes: &mut P,
        versions: &FileVersions,
        ask: &Ask,
    ) -> (u8, Vec<u8>)
    where
        A: Answers<R, P>,
        V: Notice<R>,
        requires { IsAsk ask.now.group ask.now.key.items }
        ensures spelled { IsReply ask.now.key.items result.0 result.1.items }
        ensures allowed { RepliesToVersion (told versions.now) (A.answers self.now.service.now) ask.now.version ask.now.group
            ask.now.key.items result.0 result.1.items }
    {
        match versions.take_off(alloc, ask.key.as_slice()) {
            Ok(Some(key)) => {
                let bare = Ask {
                    version: ask.version,
                    group: ask.group,
                    key,
                };
                self.service.answer(rt, alloc, passes, &bare)
            }
            Ok(None) => {
                self.tell_other(rt, versions, ask);
                (Fault::UnknownName.number(), Vec::new(alloc))
            }
            Err(_) => (Fault::NoMemory.number(), Vec::new(alloc)),
        }
    }
}

impl<'a, R, P, A: Answers<R, P>, V: Notice<R>> Answers<R, P> for Compared<'a, A, V> {
    ghost answers = { λ c. RepliesIn (told_by c.versions) (A.answers c.service.now) };

    fn answer(&self, rt: &R, alloc: Global, passes: &mut P, ask: &Ask) -> (u8, Vec<u8>) {
        match self.versions {
            None => self.service.answer(rt, alloc, passes, ask),
            Some(versions) => self.answer_version(rt, alloc, passes, versions, ask),
        }
    }
}
