//! A destination that one thread notes and another one takes.

use roam_conf::{Address, Endpoint};
use std::net::{IpAddr, Ipv6Addr};
use std::sync::atomic::{AtomicU64, Ordering};

/// None is noted.
const NONE: u64 = 0;

/// One is being written.
const WRITING: u64 = 1;

/// One of IPv4, or of IPv6, is there, whose port is added to this.
const IPV4: u64 = 1 << 16;

const IPV6: u64 = 2 << 16;

/// The two halves of an address of 128 bits are below this.
const HALF: u128 = 1 << 64;

/// The first destination that was noted since one was taken.
#[derive(Drop)]
pub(crate) struct Destination {
    state: AtomicU64,
    high: AtomicU64,
    low: AtomicU64,
}

/// Returns the address of a number of 128 bits, where it is one of IPv6.
fn ipv6_of(high: u64, low: u64) -> Option<Address> {
    let number = u128::from(high) * HALF + u128::from(low);
    Address::new(IpAddr::V6(Ipv6Addr::from_bits(number)))
}

impl Destination {
    /// Makes the place where no destination is noted.
    pub fn none() -> Destination {
        Destination {
            state: AtomicU64::new(NONE),
            high: AtomicU64::new(0),
            low: AtomicU64::new(0),
        }
    }

    /// Notes a destination, where none is noted. Never waits.
    pub fn note(&self, to: Endpoint) {
        let seen = self
            .state
            .compare_exchange(NONE, WRITING, Ordering::SeqCst, Ordering::SeqCst);
        if seen.is_err() {
            return;
        }
        let number = to.ip.number();
        self.high.store((number / HALF) as u64, Ordering::SeqCst);
        self.low.store((number % HALF) as u64, Ordering::SeqCst);
        let kind = if to.ip.is_ipv6() { IPV6 } else { IPV4 };
        self.state
            .store(kind + u64::from(to.port), Ordering::SeqCst);
    }

    /// Takes the destination that is noted, if one is. One thread only does so.
    pub fn take(&self) -> Option<Endpoint> {
        let state = self.state.load(Ordering::SeqCst);
        if state < IPV4 {
            return None;
        }
        let high = self.high.load(Ordering::SeqCst);
        let low = self.low.load(Ordering::SeqCst);
        self.state.store(NONE, Ordering::SeqCst);
        let ip = if state < IPV6 {
            Address::from_ipv4_octets(u32::try_from(low).ok()?.to_be_bytes())
        } else {
            ipv6_of(high, low)?
        };
        Some(Endpoint {
            ip,
            port: (state % IPV4) as u16,
        })
    }
}
