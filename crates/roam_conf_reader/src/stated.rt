//! The statements of a document, before duplicates are looked for.

ghost use Rattle.std.specs.Prelude.{◌≡◌, codes, Err, IfOk, MatchOption, Some};
ghost use Rattle.toml.specs.View.{array_view, table_view};
ghost use Rattle.roam_conf.specs.Config.{ConfigView};
ghost use Rattle.roam_conf.specs.Shown.{shown_parts};
ghost use Rattle.roam_conf_reader.specs.Document.{StatesConfig};
ghost use Rattle.roam_conf_reader.specs.Reading.{IsValueFault};
ghost use Rattle.roam_conf_reader.specs.Texts.{StatesBesideArrays};
ghost use Rattle.roam_conf_reader.specs.Values.{array_of, value_at};

use crate::tables::{TOP_KEYS, TOP_OPTIONAL_KEYS, has_only};
use crate::{ConfFault, endpoints, keys, pattern, peer, realm};
use roam_conf::{ConfigParts, TopKeys};
use std::alloc::Global;
use toml::Table;
use toml::value::Array;

/// The top of a document, as stated. Its endpoints, the names to reject, and the tables of its peers and realms still
/// stand in it.
#[derive(Clone, Copy)]
struct TopText<'a> {
    top: TopKeys,
    peers: &'a Array,
    realms: &'a Array,
}

/// Returns what a document states; nothing where one of its own values is bad.
fn top_text(table: &Table) -> Option<TopText<'_>>
    ensures { MatchOption result
        ((config : ConfigView) → ¬ (StatesConfig (table_view table.now) config))
        (λ text. StatesBesideArrays (table_view table.now) text
        × (value_at (array_of 1024) (codes "peer") (table_view table.now)
        ≡ Some (array_view text.peers.now)) × (value_at (array_of 1024) (codes "realm")
        (table_view table.now) ≡ Some (array_view text.realms.now))) }
{
    if !has_only(table, &TOP_KEYS, &TOP_OPTIONAL_KEYS) {
        return None;
    }
    let (Some(_), Some(_), Some(_), Some(_), Some(_), Some(_)) = (
        keys::optional_endpoint(table, "metrics"),
        keys::optional_socket_path(table, "control"),
        keys::exchange_lines(table, "log_exchanges"),
        keys::station_word(table, "log_station"),
        keys::optional_file_path(table, "state"),
        keys::number_or(table, "state_every", 60, 1, 86400),
    ) else {
        return None;
    };
    let (Some(status_server), Some(spread), Some(well_formed), Some(answer_unnamed)) = (
        keys::flag(table, "status_server"),
        keys::flag(table, "spread"),
        keys::flag(table, "well_formed"),
        keys::flag(table, "answer_unnamed"),
    ) else {
        return None;
    };
    Some(TopText {
        top: TopKeys {
            shards: keys::number_or(table, "shards", 1, 1, 64)? as u16,
            seed: keys::seed_or_zeros(table, "seed")?,
            trace_limit: keys::number_or(table, "trace_limit", 100000, 1, 1000000)?,
            trace_octets: keys::number_or(table, "trace_octets", 67108864, 1, 1073741824)?,
            max_hops: keys::optional_octet(table, "max_hops", 100)?,
            max_attributes: keys::optional_count(table, "max_attributes", 1, 2000)?,
            status_server,
            spread,
            well_formed,
            answer_unnamed,
            fresh: keys::optional_count(table, "fresh", 10, 3600)?,
        },
        peers: keys::array(table, "peer", 1024)?,
        realms: keys::array(table, "realm", 1024)?,
    })
}

/// Returns what the top table states.
pub(crate) fn parts_from(alloc: Global, table: &Table) -> Result<ConfigParts, ConfFault>
    ensures ok { IfOk result (λ parts. StatesConfig (table_view table.now) (shown_parts parts)) }
    ensures bad { result ≡ Err ConfFault.BadValue
        → (config : ConfigView) → ¬ (StatesConfig (table_view table.now) config) }
    ensures causes { IsValueFault result }
{
    let Some(text) = top_text(table) else {
        return Err(ConfFault::BadValue);
    };
    Ok(ConfigParts {
        top: text.top,
        auth: endpoints::at(alloc, table, "auth", 8)?,
        acct: endpoints::at(alloc, table, "acct", 8)?,
        reject: pattern::rejects_from(alloc, table)?,
        peers: peer::all_from(alloc, text.peers)?,
        realms: realm::all_from(alloc, text.realms)?,
    })
}
