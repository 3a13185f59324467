//! How far a job was read.

use crate::grammar::Grammar;
use crate::job_names::JobNames;
use crate::task::TaskPart;
use cov_base::Name;
use listing_reader::ListingLines;
use module_area::Image;
use session_book::{Service, TaskCard};
use std::marker::Model;

/// A session as its card says, with its controller's name, none for a whole session.
#[derive(Drop)]
pub(crate) struct SessionDraft {
    pub name: Name,
    pub phase: u32,
    pub modules: Vec<u32>,
    pub by: Option<Name>,
}

impl Model for SessionDraft {
    ghost use Rattle.job_text.specs.Meaning as drafts;

    ghost Value = { drafts.SessionDraft };

    ghost view = { λ s. record { name = s.name; phase = s.phase; modules = s.modules.items; by = s.by } };
}

/// What of a job was read whole, with its names, by which modules, phases, sessions and tasks are found.
#[derive(Drop)]
pub(crate) struct Draft {
    pub grammar: Grammar,
    pub images: Vec<Image>,
    pub listings: Vec<Option<ListingLines>>,
    pub services: Vec<Service>,
    pub phases: Vec<Name>,
    pub sessions: Vec<SessionDraft>,
    pub tasks: Vec<TaskCard>,
    pub names: JobNames,
}

impl Model for Draft {
    ghost use Rattle.job_text.specs.Meaning.{DraftView};

    ghost Value = { DraftView };

    ghost use Rattle.job_text.specs.DraftInside.{draft_view, HasNames};

    ghost view = { draft_view };

    ghost invariant = { HasNames };
}

/// What of a job was read in part, or what was read last.
#[derive(Drop)]
pub(crate) enum Part {
    /// Nothing.
    Start,
    /// COVERJOB.
    Modules,
    /// A module, of which `left` bytes are still to come.
    Texts {
        image: Image,
        left: u32,
    },
    /// A listing, of which `left` lines are still to come.
    Listed {
        image: Image,
        left: u32,
        lines: ListingLines,
    },
    /// SERVICE.
    Services,
    /// PHASE or SESSION.
    Sessions,
    /// The open task.
    Task(TaskPart),
    /// ENDJOB.
    Done,
}
