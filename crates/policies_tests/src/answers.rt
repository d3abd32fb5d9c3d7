// What a call answers.
use policy::{Granted, PolicyFault};

pub type Answer = Result<Granted, PolicyFault>;

pub const GRANTED: Answer = Ok(Granted);

pub const UNFIT: Answer = Err(PolicyFault::Unfit);
