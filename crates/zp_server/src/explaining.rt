//! Tells an operator why a first ask had no answer.

use ev_addresses::{address_at, count_of};
use ev_faults::{Fault, tell};
use zx_net::Net;

/// Whether an address begins with a scheme, and so cannot be dialled.
fn has_scheme(address: &str) -> bool {
    address.contains("://")
}

/// Tells the operator of addresses with a scheme.
pub fn tell_schemes<R: Eprint>(rt: &R, endpoint: &str) {
    'addresses: for index in 0..count_of(endpoint) {
        let address = address_at(endpoint, index);
        if has_scheme(address) {
            tell(rt, "endpoint", address, Fault::Scheme);
        }
    }
}

/// Why an endpoint gave no answer to the first ask. It is dialled once more for that, and asked nothing.
fn fault_at<N: Net>(net: &mut N, address: &str) -> Fault {
    if has_scheme(address) {
        return Fault::Scheme;
    }
    match net.dial(address) {
        Ok(_) => Fault::First,
        Err(why) => Fault::Undialled(why),
    }
}

/// Tells the operator of each endpoint why it gave no answer to the first ask.
pub fn explain<R: Eprint, N: Net + Drop>(rt: &R, net: N, endpoint: &str) {
    let mut net = net;
    'addresses: for index in 0..count_of(endpoint) {
        let address = address_at(endpoint, index);
        let fault = fault_at(&mut net, address);
        tell(rt, "endpoint", address, fault);
    }
}
