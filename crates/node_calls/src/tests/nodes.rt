//! One node, input by input.
mod agreements;
mod desk;
mod inputs;
mod messages;
mod outputs;
mod packets;
mod routing;
