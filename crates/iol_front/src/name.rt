//! Which front is meant.

use std::marker::Brand;

/// Names one front in the types over it: values of one name belong to one front. A function that makes a front picks
/// its name when it calls the function that uses the front, as [`Brand`].
pub trait Name: Send + Sync {
    ghost use Rattle.iol_front.specs.Fronts.{FrontId};

    ghost front: { FrontId };
}

impl Name for Brand {
    ghost use Rattle.iol_front.specs.Fronts.{no_front};

    ghost front = { no_front };
}
