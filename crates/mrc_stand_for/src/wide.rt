//! The lines of a wiring of version 4. Some are written in place of several lines of version 3.

use crate::several::Several;
use mrc_base::PortRight;
use mrc_wiring_text::{Items, Kind, Line, Name, TrustVerb};

/// TASKS: tasks of the wiring.
#[derive(Drop)]
pub enum Tasks {
    /// `all`: each task.
    All,
    /// `all but WHO, WHO ..`: each task but these and those of these groups.
    AllBut(Several<Name>),
    /// `WHO, WHO ..`: these tasks and those of these groups.
    Listed(Several<Name>),
}

/// WHOM: tasks of the wiring, in a place.
#[derive(Drop)]
pub enum Whom {
    /// WHO: the task, or those of the group.
    Who(Name),
    /// `all`: each task.
    All,
    /// `all but WHO`: each task but this, or those of this group.
    AllBut(Name),
    /// `other`: each task but the one for which the line then stands.
    Other,
}

/// Which births of a task.
#[derive(Drop)]
pub enum Kinds {
    /// Those of this kind.
    One(Kind),
    /// `any`: those of kind 0 and of each kind that a line above names.
    Any,
}

/// CLASS: classes of ports.
#[derive(Drop)]
pub enum WideClass {
    /// `port P`: the wired port P.
    Port(Name),
    /// `task WHOM`: the kernel ports of these tasks.
    Task(Whom),
    /// `births WHOM K`, `births WHOM any`: the births of these tasks, and the wired ports that are
    /// such births.
    Births {
        /// The tasks.
        whom: Whom,
        /// Their kinds.
        kinds: Kinds,
    },
    /// The name of a set: its classes.
    Set(Name),
}

/// PLACE: ports on which a line gives a send right.
#[derive(Drop)]
pub enum Place {
    /// `port P`: the wired port P.
    Port(Name),
    /// `task WHOM`: the kernel ports of these tasks.
    Task(Whom),
}

/// A port on which a line gives a send right.
#[derive(Drop)]
pub(crate) enum PlaceName {
    /// The wired port.
    Port(Name),
    /// The kernel port of the task.
    Task(Name),
}

/// A type of a subsystem, as its slots have it.
#[derive(Drop)]
pub struct SlotName {
    /// The subsystem.
    pub subsystem: Name,
    /// The name of the type.
    pub type_name: Name,
}

/// A verb that goes with rights.
#[derive(Clone, Copy)]
pub enum RightVerb {
    /// `takes`.
    Takes,
    /// `gives`.
    Gives,
    /// `sends`.
    Sends,
}

/// What a line of a wiring of version 4 says.
#[derive(Drop)]
pub enum WideSays {
    /// `task T, T ..`: there are tasks of these names.
    Task(Several<Name>),
    /// `group G TASKS`: G stands for these tasks.
    Group {
        /// G.
        group: Name,
        /// The tasks.
        tasks: Tasks,
    },
    /// `set S CLASSES`: S stands for these classes.
    Set {
        /// S.
        set: Name,
        /// The classes.
        classes: Several<WideClass>,
    },
    /// `port P receiver T accepts ITEMS`: stands for itself.
    Port {
        /// P.
        port: Name,
        /// T, which holds the receive right.
        receiver: Name,
        /// What the port's class accepts.
        accepts: Items,
    },
    /// `port P of births T K`: a wired port of T that accepts what T's births of kind K do.
    PortOf {
        /// P.
        port: Name,
        /// T.
        task: Name,
        /// K.
        kind: Kind,
    },
    /// `births TASKS K accepts ITEMS`: the births of kind K of each of the tasks accept the items.
    Births {
        /// The tasks.
        tasks: Tasks,
        /// K.
        kind: Kind,
        /// The items.
        accepts: Items,
    },
    /// `births TASKS K replies I, I ..`: the births of kind K of each of the tasks accept the
    /// replies of the first subsystem, those of kind K + 1 the replies of the next, and so on.
    Replies {
        /// The tasks.
        tasks: Tasks,
        /// K.
        kind: Kind,
        /// The subsystems.
        subsystems: Several<Name>,
    },
    /// `hold TASKS send PLACE, PLACE ..`: each of the tasks holds a send right on each.
    HoldSend {
        /// The tasks.
        tasks: Tasks,
        /// The places.
        places: Several<Place>,
    },
    /// `hold TASKS once port P, port P ..`: each of the tasks holds a send-once right on each.
    HoldOnce {
        /// The tasks.
        tasks: Tasks,
        /// The wired ports.
        ports: Several<Name>,
    },
    /// `admit SLOT, SLOT .. CLASSES`, or `none`: slots of each type admit ports of each class.
    Admit {
        /// The types.
        slots: Several<SlotName>,
        /// The classes, or none.
        classes: Option<Several<WideClass>>,
    },
    /// `trust TASKS VERB, VERB .. RIGHTS CLASSES`: by each verb, each of the tasks may do no more
    /// than such lines name.
    Trust {
        /// The tasks.
        tasks: Tasks,
        /// The verbs.
        verbs: Several<RightVerb>,
        /// The rights.
        rights: Several<PortRight>,
        /// The classes.
        classes: Several<WideClass>,
    },
    /// `trust TASKS replies CLASSES`: the same of the reply ports that they name.
    TrustReplies {
        /// The tasks.
        tasks: Tasks,
        /// The classes.
        classes: Several<WideClass>,
    },
    /// `trust TASKS VERB, VERB .. none`: such lines name nothing for these verbs.
    TrustNone {
        /// The tasks.
        tasks: Tasks,
        /// The verbs.
        verbs: Several<TrustVerb>,
    },
    /// `replies fit`: stands for itself.
    RepliesFit,
}

/// A line of a wiring of version 4 that says something.
pub type WideLine = Line<WideSays>;
