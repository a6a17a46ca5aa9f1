//! Watches, and the notices that changes of the tree give (Programmer's Guide, "ZooKeeper Watches").

ghost use Rattle.std.specs.Prelude.{◌≡◌, ◌||◌, IfOk};
ghost use Rattle.std.specs.FinMap.{contains_key};
ghost use Rattle.zk_model.specs.Watches.{is_unarmed, no_watches, arm_data, arm_children, fired_data, fired_children, fire, fire_all, is_watched, note, unwatched};
ghost use Rattle.zk_answers.specs.Outcomes.{fired_of};

use std::alloc::Global;
use std::marker::Model;
use zk_model::event::{CHANGED, CHILDREN, CREATED, DELETED};
use zk_model::watcher::{names_children, names_data};
use zk_model::{Notice, Path, PathSet, Trigger};
use zx_base::{Memory, Seq, Text};

/// The data watches and the child watches of a connection.
#[derive(Drop)]
pub struct Watches {
    on_data: PathSet,
    on_children: PathSet,
}

impl Model for Watches {
    ghost use Rattle.zk_model.specs.Watches.{Watches as Armed};
    ghost use Rattle.zk_model.specs.PathSets.{coded_watches};

    ghost Value = { Armed };

    ghost coded = { coded_watches };

    ghost view = { λ w. record { on_data = w.on_data; on_children = w.on_children } };
}

/// What is armed, and the notices that were given so far.
#[derive(Drop)]
pub struct Seen {
    pub watches: Watches,
    pub notices: Seq<Notice>,
}

/// One notice where a watch was hit, and none otherwise.
fn note(alloc: Global, is_hit: bool, kind: u8, path: &[u8]) -> Result<Seq<Notice>, Memory>
    ensures { IfOk result (λ notices. notices ≡ note is_hit kind path.now) }
{
    let mut notices = Seq::new(alloc);
    if is_hit {
        notices.push(Notice {
            kind: i32::from(kind),
            path: Text::copy_of(alloc, path)?,
        })?;
    }
    Ok(notices)
}

impl Watches {
    /// No watches.
    pub fn new(alloc: Global) -> Watches
        ensures { result ≡ no_watches }
    {
        Watches {
            on_data: PathSet::new(alloc),
            on_children: PathSet::new(alloc),
        }
    }

    /// A copy, which takes a step for each watch.
    pub fn copy(&self) -> Result<Watches, Memory>
        ensures { IfOk result (λ w. w ≡ self.now) }
    {
        Ok(Watches {
            on_data: self.on_data.copy()?,
            on_children: self.on_children.copy()?,
        })
    }

    /// Whether there is no watch.
    pub fn is_unarmed(&self) -> bool
        ensures { result ≡ is_unarmed self.now }
    {
        self.on_data.is_empty() && self.on_children.is_empty()
    }

    /// The watches with a data watch on this path.
    pub fn arm_data(self, alloc: Global, path: &[u8]) -> Result<Watches, Memory>
        ensures { IfOk result (λ w. w ≡ arm_data self path.now) }
    {
        let mut on_data = self.on_data;
        on_data.insert(alloc, path)?;
        Ok(Watches {
            on_data,
            on_children: self.on_children,
        })
    }

    /// The watches with a child watch on this path.
    pub fn arm_children(self, alloc: Global, path: &[u8]) -> Result<Watches, Memory>
        ensures { IfOk result (λ w. w ≡ arm_children self path.now) }
    {
        let mut on_children = self.on_children;
        on_children.insert(alloc, path)?;
        Ok(Watches {
            on_data: self.on_data,
            on_children,
        })
    }

    /// Whether one of the path's watches of this type (`Watcher.WatcherType`) is armed.
    pub fn has(&self, path: &[u8], kind: i32) -> bool
        ensures { result ≡ is_watched self.now path.now kind }
    {
        (names_children(kind) && self.on_children.contains(path))
            || (names_data(kind) && self.on_data.contains(path))
    }

    /// The watches without the path's watches of this type.
    pub fn without(self, path: &[u8], kind: i32) -> Watches
        ensures { result ≡ unwatched self path.now kind }
    {
        let mut on_data = self.on_data;
        let mut on_children = self.on_children;
        if names_data(kind) {
            on_data.remove(path);
        }
        if names_children(kind) {
            on_children.remove(path);
        }
        Watches {
            on_data,
            on_children,
        }
    }

    /// The path's data watch fires, where there is one.
    fn fire_data(self, alloc: Global, kind: u8, path: &Path) -> Result<Seen, Memory>
        ensures { IfOk result (λ s. fired_of s ≡ (fired_data self path.now, note (contains_key self.on_data path.now) kind path.now)) }
    {
        let mut on_data = self.on_data;
        let is_hit = on_data.remove(path.bytes());
        Ok(Seen {
            watches: Watches {
                on_data,
                on_children: self.on_children,
            },
            notices: note(alloc, is_hit, kind, path.bytes())?,
        })
    }

    /// The path's child watch fires, where there is one.
    fn fire_children(self, alloc: Global, path: &Path) -> Result<Seen, Memory>
        ensures { IfOk result (λ s. fired_of s ≡ (fired_children self path.now, note (contains_key self.on_children path.now) 4 path.now)) }
    {
        let mut on_children = self.on_children;
        let is_hit = on_children.remove(path.bytes());
        Ok(Seen {
            watches: Watches {
                on_data: self.on_data,
                on_children,
            },
            notices: note(alloc, is_hit, CHILDREN, path.bytes())?,
        })
    }

    /// Both watches of the path fire, where there are any, with one notice.
    fn fire_both(self, alloc: Global, path: &Path) -> Result<Seen, Memory>
        ensures { IfOk result (λ s. fired_of s ≡ (fired_children (fired_data self path.now) path.now, note (contains_key self.on_data path.now || contains_key self.on_children path.now) 2 path.now)) }
    {
        let mut on_data = self.on_data;
        let mut on_children = self.on_children;
        let has_data = on_data.remove(path.bytes());
        let has_children = on_children.remove(path.bytes());
        Ok(Seen {
            watches: Watches {
                on_data,
                on_children,
            },
            notices: note(alloc, has_data || has_children, DELETED, path.bytes())?,
        })
    }

    /// What a change leaves armed, and its notices. A change that hits no watch takes no memory.
    pub fn fire(self, alloc: Global, trigger: &Trigger) -> Result<Seen, Memory>
        ensures { IfOk result (λ s. fired_of s ≡ fire self trigger.now) }
    {
        match trigger {
            Trigger::Created(path) => self.fire_data(alloc, CREATED, path),
            Trigger::Deleted(path) => self.fire_both(alloc, path),
            Trigger::Changed(path) => self.fire_data(alloc, CHANGED, path),
            Trigger::Children(path) => self.fire_children(alloc, path),
        }
    }

    /// What several changes leave armed, one after the other, and their notices.
    pub fn fire_all(self, alloc: Global, triggers: &[Trigger]) -> Result<Seen, Memory>
        ensures { IfOk result (λ s. fired_of s ≡ fire_all self triggers.now) }
    {
        let mut watches = self;
        let mut notices = Vec::new(alloc);
        for trigger in triggers {
            let fired = watches.fire(alloc, trigger)?;
            let mut told = fired.notices.into_vec();
            notices.append(&mut told)?;
            watches = fired.watches;
        }
        Ok(Seen {
            watches,
            notices: Seq::from_vec(notices),
        })
    }
}
