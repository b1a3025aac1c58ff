//! The metrics of the whole server.

use roam_counters::Process;

/// A metric of the whole server: its name, what it means, and its samples, each with the label's value.
pub(crate) struct OfServer {
    pub name: &'static str,
    pub help: &'static str,
    pub label: &'static str,
    pub samples: &'static [(&'static str, Process)],
}

/// The metrics of the whole server, in the order in which they are told.
pub(crate) static OF_SERVER: [OfServer; 7] = [
    OfServer {
        name: "roam_received_datagrams_total",
        help: "Datagrams received.",
        label: "place",
        samples: &[
            ("auth", Process::ReceivedAuth),
            ("acct", Process::ReceivedAcct),
            ("out", Process::ReceivedOut),
            ("reverse", Process::ReceivedReverse),
        ],
    },
    OfServer {
        name: "roam_handled_datagrams_total",
        help: "Datagrams received, by what was done with them.",
        label: "outcome",
        samples: &[
            ("taken", Process::DatagramTaken),
            ("answered", Process::DatagramAnswered),
            ("refused", Process::DatagramRefused),
            ("failed", Process::DatagramFailed),
            ("dropped", Process::DatagramDropped),
        ],
    },
    OfServer {
        name: "roam_sent_packets_total",
        help: "Packets handed to a socket.",
        label: "outcome",
        samples: &[("sent", Process::Sent)],
    },
    OfServer {
        name: "roam_lost_packets_total",
        help: "Packets lost before they left.",
        label: "cause",
        samples: &[
            ("full_ring", Process::LostFullRing),
            ("unreachable", Process::LostUnreachable),
            ("not_permitted", Process::LostNotPermitted),
            ("other", Process::LostOther),
        ],
    },
    OfServer {
        name: "roam_history_steps_total",
        help: "Steps recorded in the shards' histories.",
        label: "outcome",
        samples: &[("stored", Process::Step), ("let_go", Process::StepLetGo)],
    },
    OfServer {
        name: "roam_exchange_lines_lost_total",
        help: "Exchanges that ended without a line in the log.",
        label: "cause",
        samples: &[
            ("dropped", Process::LineDropped),
            ("not_noted", Process::NoteMissed),
        ],
    },
    OfServer {
        name: "roam_history_let_go_total",
        help: "Times that a shard's stored steps were cleared.",
        label: "outcome",
        samples: &[("let_go", Process::TimeLetGo)],
    },
];
