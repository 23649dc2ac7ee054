// Modules, read token by token: a machine of one step a token, over what has been read so far.
pub(crate) mod block;
pub(crate) mod finish;
pub(crate) mod header;
pub(crate) mod run;
pub(crate) mod step;
