// The whole state as octets in a fixed order, so that two states can be compared octet by octet. For run.rt. Each put
// function adds its part to out.
//
// The parts follow each other without a gap, numbers low octet first, a flag as its octet, which the calls set to 0 or 1:
//     masks         event (8), event_page2 (8), le_event (8)
//     settings      random_address (6), address_resolution (a flag), rpa_timeout (2), suggested_data_length (2 numbers of 2),
//                   default_phy (3), host_flow_control, advertising_family, test, rf_path_compensation (2 numbers of 2)
//     advertising   params (15), how many octets of data there are, those, how many of scan response, those, enabled (a flag)
//     scanning      params (7), enable (2), initiating (a flag), initiator_filter
//     accept list   how many entries there are, 7 octets each
//     resolving     how many identities there are, 8 octets each
//     links         how many there are, each as below, and how many packets are in flight (2)
//     counters      commands (8), unknown_commands (8), acl_packets (8), acl_dropped (8)
//     recent        how many answers there are, oldest first, 3 octets each
// A link is its handle, interval, latency, timeout, tx_octets, tx_time and auth_payload_timeout (2 each), tx_phy, rx_phy,
// terminating, ltk_requested (a flag), how many packets wait in it, and those, oldest first: how many octets (2), and those.
use filters::{AcceptList, ResolvingList};
use links::{Connection, Links, Waiting};
use profile::ControllerRow;
use state::{Advertising, Controller, Counters, Masks, Recent, Scanning, Settings};

// What is written of a state: the first octets of a slice.
#[derive(Drop)]
struct Out<'a> {
    octets: &'a mut [u8],
    written: usize,
}

impl Out<'_> {
    // Adds octets, as many as there is room for.
    fn put(&mut self, octets: &[u8]) {
        let start = self.written.min(self.octets.len());
        let places = &mut self.octets[start..];
        let count = places.len().min(octets.len());
        places[..count].copy_from_slice(&octets[..count]);
        self.written = start + count;
    }
}

// Writes the state, whose waiting packets are in the pool, and gives how many octets it has.
pub fn put_state(profile: ControllerRow, s: Controller, pool: &[u8], out: &mut [u8]) -> usize {
    let mut out = Out {
        octets: out,
        written: 0,
    };
    put_masks(&mut out, s.masks);
    put_settings(&mut out, s.settings);
    put_advertising(&mut out, s.advertising);
    put_scanning(&mut out, s.scanning);
    put_accept_list(&mut out, s.accept_list);
    put_resolving_list(&mut out, s.resolving_list);
    put_links(&mut out, s.links, profile.acl_len, pool);
    put_counters(&mut out, s.counters);
    put_recent(&mut out, s.recent);
    out.written
}

// How many entries there are in use, and those, from the front of a list that has so many octets for each.
fn put_counted(out: &mut Out<'_>, count: usize, width: u8, list: &[u8]) {
    let [count, ..] = count.to_le_bytes();
    let octets = usize::from(count) * usize::from(width);
    out.put(&[count]);
    out.put(&list[..octets.min(list.len())]);
}

fn put_masks(out: &mut Out<'_>, masks: Masks) {
    let longs = [masks.event, masks.event_page2, masks.le_event];
    out.put(longs.map(u64::to_le_bytes).as_flattened());
}

fn put_settings(out: &mut Out<'_>, settings: Settings) {
    out.put(&settings.random_address);
    out.put(&[settings.address_resolution]);
    out.put(&settings.rpa_timeout.to_le_bytes());
    let data_length = settings.suggested_data_length.map(u16::to_le_bytes);
    out.put(data_length.as_flattened());
    out.put(&settings.default_phy);
    out.put(&[
        settings.host_flow_control,
        settings.advertising_family,
        settings.test,
    ]);
    let path_compensation = settings.rf_path_compensation.map(u16::to_le_bytes);
    out.put(path_compensation.as_flattened());
}

fn put_advertising(out: &mut Out<'_>, advertising: Advertising) {
    let data_len = usize::from(advertising.data_len);
    let scan_response_len = usize::from(advertising.scan_response_len);
    out.put(&advertising.params);
    put_counted(out, data_len, 1, &advertising.data);
    put_counted(out, scan_response_len, 1, &advertising.scan_response);
    out.put(&[advertising.enabled]);
}

fn put_scanning(out: &mut Out<'_>, scanning: Scanning) {
    out.put(&scanning.params);
    out.put(&scanning.enable);
    out.put(&[scanning.initiating, scanning.initiator_filter]);
}

fn put_accept_list(out: &mut Out<'_>, list: AcceptList) {
    put_counted(out, list.count, 7, &list.octets);
}

fn put_resolving_list(out: &mut Out<'_>, list: ResolvingList) {
    put_counted(out, list.count, 8, &list.octets);
}

// The links, and how many packets are in flight. The profile's length and no `Places`: a packet's index, of an octet and a word,
// is known to fit; of two `usize` it is not.
fn put_links(out: &mut Out<'_>, links: Links, acl_len: u16, pool: &[u8]) {
    let connections = &links.connections[..links.count.min(16)];
    let [count, ..] = connections.len().to_le_bytes();
    out.put(&[count]);
    for link in connections {
        put_link(out, *link, links, acl_len, pool);
    }
    out.put(&links.in_flight.to_le_bytes());
}

// One link, and the packets that wait in it.
fn put_link(out: &mut Out<'_>, link: Connection, links: Links, acl_len: u16, pool: &[u8]) {
    let words = [
        link.handle,
        link.interval,
        link.latency,
        link.timeout,
        link.tx_octets,
        link.tx_time,
        link.auth_payload_timeout,
    ];
    out.put(words.map(u16::to_le_bytes).as_flattened());
    let modes = [
        link.tx_phy,
        link.rx_phy,
        link.terminating,
        link.ltk_requested,
    ];
    out.put(&modes);
    put_packets(out, link.handle, links, acl_len, pool);
}

// The packets that wait in the link with this handle, behind how many they are.
fn put_packets(out: &mut Out<'_>, handle: u16, links: Links, acl_len: u16, pool: &[u8]) {
    let waiting = &links.waiting[..links.waiting_count.min(32)];
    let count = waiting.iter().filter(|w| w.handle == handle).count();
    let [count, ..] = count.to_le_bytes();
    out.put(&[count]);
    for w in waiting.iter().filter(|w| w.handle == handle) {
        put_packet(out, *w, acl_len, pool);
    }
}

// A packet that waits.
fn put_packet(out: &mut Out<'_>, w: Waiting, acl_len: u16, pool: &[u8]) {
    let start = usize::from(w.place) * (usize::from(acl_len) + 5);
    let place = pool.get(start..).unwrap_or(&[]);
    out.put(&w.len.to_le_bytes());
    out.put(&place[..place.len().min(usize::from(w.len))]);
}

fn put_counters(out: &mut Out<'_>, counters: Counters) {
    let longs = [
        counters.commands,
        counters.unknown_commands,
        counters.acl_packets,
        counters.acl_dropped,
    ];
    out.put(longs.map(u64::to_le_bytes).as_flattened());
}

// The last answers.
fn put_recent(out: &mut Out<'_>, recent: Recent) {
    put_counted(out, recent.count, 3, &recent.octets);
}
