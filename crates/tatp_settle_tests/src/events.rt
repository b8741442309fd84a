//! Sites, mostly of 192 subscribers in three extents, and what happens at them.
ghost use Rattle.std.specs.Prelude.{◌<◌, ◌^◌, IsTrue, length};
ghost use Rattle.tatp_logs.specs.Lists.{lists_of};
ghost use Rattle.tatp_settle.specs.Runs.{joined};

use crate::sites::{begins, ended, lands, opened, spend_parcels, spend_site};
use std::alloc::{AllocError, Global};
use tatp_calls::{Ask, Call, Raw, Reply};
use tatp_extents::{Chapter, Discard, discard_all};
use tatp_loader::Loaded;
use tatp_logs::{Receipt, Receipts};
use tatp_numbers::Key;
use tatp_partition::{Item, Parcel, Site};

/// What happens at a site.
#[derive(Clone, Copy)]
pub enum Event {
    /// The call of a client, by its number, reads at the home of a subscriber.
    Call(u64, u64, u64),
    /// The same, of a client that has seen this stamp.
    Late(u64, u64, u64, u64),
    /// The call of a client reads, without a home, for a subscriber.
    Homeless(u64, u64, u64),
    /// A call that is no standard transaction reads at the home of a subscriber.
    Raw(u64),
    /// The same without a home.
    RawHomeless,
    /// The extent is taken and lands there again.
    Moved(u32),
    /// The extent is taken, and stays in its parcel.
    Taken(u32),
    /// The extent is taken, and is spent.
    Lost(u32),
    /// The location of the subscriber is written.
    Updated(u64),
    /// The extent hands out a chapter, which stays.
    Kept(u32),
    /// The extent hands out a chapter, which is spent.
    HandedOut(u32),
}

/// What is left of a run: its sites, the parcels that are under way, and its chapters.
pub struct Left<'m> {
    pub sites: Vec<Site<'m>>,
    pub parcels: Vec<Parcel>,
    pub chapters: Vec<Chapter>,
}

impl Left<'_> {
    /// Spends it.
    pub fn discard(self) {
        let Left {
            sites,
            parcels,
            chapters,
        } = self;
        discard_all(sites);
        spend_parcels(parcels);
        discard_all(chapters);
    }
}

/// A reading of access data that a subscriber lacks: it has one row in Access_Info.
fn reading(s_id: u64) -> Ask {
    Ask::Txn(Call::GetAccessData { s_id, ai_type: 2 })
}

/// The same reading as a call that is no standard transaction.
fn raw(s_id: u64) -> Ask {
    Ask::Raw(Raw::new(2, &[s_id, 2], Key::Id(s_id)))
}

/// The writing of a location that no subscriber of a population has.
fn updating(s_id: u64) -> Ask {
    Ask::Txn(Call::UpdateLocation {
        sub_nbr: s_id,
        vlr_location: 9,
    })
}

/// Runs a call, by its client, its number and the stamp that was seen, in at most 256 steps;
/// whether it ended.
fn ends(
    alloc: Global,
    site: &mut Site<'_>,
    (client, number, seen): (u64, u64, u64),
    ask: Ask,
    home: Option<u64>,
) -> bool {
    let item = Item {
        client,
        number,
        seen,
        ask,
        home,
    };
    begins(site, alloc, item) == Ok(true) && ended(site).is_some()
}

/// Keeps a parcel; whether there was memory.
fn keeps(parcels: &mut Vec<Parcel>, parcel: Parcel) -> bool {
    match parcels.push(parcel) {
        Ok(()) => true,
        Err(refused) => {
            let _ = refused.value.unpack().close();
            false
        }
    }
}

/// Keeps a chapter; whether there was memory.
fn keeps_chapter(chapters: &mut Vec<Chapter>, chapter: Chapter) -> bool {
    match chapters.push(chapter) {
        Ok(()) => true,
        Err(refused) => {
            refused.value.discard();
            false
        }
    }
}

/// Whether the event happened.
fn happens(
    alloc: Global,
    site: &mut Site<'_>,
    parcels: &mut Vec<Parcel>,
    chapters: &mut Vec<Chapter>,
    event: Event,
) -> bool {
    match event {
        Event::Call(client, number, s_id) => {
            ends(alloc, site, (client, number, 0), reading(s_id), Some(s_id))
        }
        Event::Late(client, number, s_id, seen) => {
            ends(
                alloc,
                site,
                (client, number, seen),
                reading(s_id),
                Some(s_id),
            )
        }
        Event::Homeless(client, number, s_id) => {
            ends(alloc, site, (client, number, 0), reading(s_id), None)
        }
        Event::Raw(s_id) => ends(alloc, site, (0, 0, 0), raw(s_id), Some(s_id)),
        Event::RawHomeless => ends(alloc, site, (0, 0, 0), raw(193), None),
        Event::Moved(e) => match site.take(e) {
            Ok(parcel) => lands(site, parcel),
            Err(_) => false,
        },
        Event::Taken(e) => match site.take(e) {
            Ok(parcel) => keeps(parcels, parcel),
            Err(_) => false,
        },
        Event::Lost(e) => match site.take(e) {
            Ok(parcel) => {
                let _ = parcel.unpack().close();
                true
            }
            Err(_) => false,
        },
        Event::Updated(s_id) => ends(alloc, site, (0, 0, 0), updating(s_id), Some(s_id)),
        Event::Kept(e) => match site.checkpoint(alloc, e) {
            Ok(chapter) => keeps_chapter(chapters, chapter),
            Err(_) => false,
        },
        Event::HandedOut(e) => match site.checkpoint(alloc, e) {
            Ok(chapter) => {
                chapter.discard();
                true
            }
            Err(_) => false,
        },
    }
}

/// Whether all events happened, one after another, at the last of the sites.
fn all_happen(alloc: Global, left: &mut Left<'_>, events: &[Event]) -> bool {
    for event in events {
        match left.sites.last_mut() {
            None => return false,
            Some(site) => {
                if !happens(alloc, site, &mut left.parcels, &mut left.chapters, *event) {
                    return false;
                }
            }
        }
    }
    true
}

/// The sites of these partitions, each with all extents of these subscribers.
fn all_opened<'m>(
    alloc: Global,
    loaded: &'m Loaded,
    subscribers: u64,
    partitions: &[u8],
) -> Result<Vec<Site<'m>>, AllocError> {
    let mut sites = Vec::new(alloc);
    for partition in partitions {
        match opened(alloc, loaded, subscribers, *partition) {
            Err(error) => {
                discard_all(sites);
                return Err(error);
            }
            Ok(site) => match sites.push(site) {
                Ok(()) => {}
                Err(refused) => {
                    spend_site(refused.value);
                    discard_all(sites);
                    return Err(AllocError);
                }
            },
        }
    }
    Ok(sites)
}

/// What is left of a run at the sites of these partitions, on these subscribers, once the events
/// have happened at the last of the sites. None where one did not happen.
pub fn left_of<'m>(
    alloc: Global,
    loaded: &'m Loaded,
    subscribers: u64,
    partitions: &[u8],
    events: &[Event],
) -> Result<Option<Left<'m>>, AllocError> {
    let mut left = Left {
        sites: all_opened(alloc, loaded, subscribers, partitions)?,
        parcels: Vec::new(alloc),
        chapters: Vec::new(alloc),
    };
    if all_happen(alloc, &mut left, events) {
        Ok(Some(left))
    } else {
        left.discard();
        Ok(None)
    }
}

/// The same on 192 subscribers.
pub fn left_at<'m>(
    alloc: Global,
    loaded: &'m Loaded,
    partitions: &[u8],
    events: &[Event],
) -> Result<Option<Left<'m>>, AllocError> {
    left_of(alloc, loaded, 192, partitions, events)
}

/// What a client got for a call that read nothing.
#[derive(Clone, Copy)]
pub enum Got {
    /// For the call of a client, by its number, this failure, this extent, and this stamp.
    Failed(u64, u64, u32, u32, u64),
    /// For the call of a client, by its number, no memory.
    Refused(u64, u64),
}

/// The readings of these subscribers, client by client.
pub fn readings(alloc: Global, clients: &[&[u64]]) -> Result<Vec<Vec<Ask>>, AllocError> {
    let mut lists = Vec::new(alloc);
    for s_ids in clients {
        let mut list = Vec::new(alloc);
        for s_id in *s_ids {
            list.push(reading(*s_id))?;
        }
        lists.push(list)?;
    }
    Ok(lists)
}

/// The receipts that clients got.
pub fn receipts(alloc: Global, clients: &[&[Got]]) -> Result<Vec<Receipts>, AllocError> {
    let mut lists = Vec::new(alloc);
    for all in clients {
        lists.push(receipts_of(alloc, all)?)?;
    }
    Ok(lists)
}

/// The receipts that a client got.
fn receipts_of(alloc: Global, all: &[Got]) -> Result<Receipts, AllocError> {
    let mut receipts = Receipts::with_room(alloc, all.len())?;
    for got in all {
        if receipts.room() == 0 {
            return Err(AllocError);
        }
        receipts.push(&match *got {
            Got::Failed(client, number, failure, extent, stamp) => Receipt::Done {
                client,
                number,
                reply: Reply::Failed(failure),
                extent,
                stamp,
            },
            Got::Refused(client, number) => Receipt::Refused { client, number },
        });
    }
    Ok(receipts)
}

/// Whether the calls are few enough to be settled; of more than 100 it may say no.
pub fn are_few(calls: &[Vec<Ask>]) -> bool
    ensures { IsTrue result → length (joined (lists_of calls.now)) < 2 ^ 64 }
{
    let mut count: u64 = 0;
    'lists: for list in calls {
        if count > 100 || list.len() > 100 {
            return false;
        }
        count += list.len() as u64;
    }
    true
}
