// The statistics of devices.
ghost use Rattle.std.specs.Prelude.{◌≡◌, ◌==◌, [], IsSome, OnOk, position};
ghost use Rattle.chip_paths.specs.Operation.{with_statistics};
ghost use Rattle.nand_model.specs.Page.{Decoding};
ghost use Rattle.chip_core.specs.Sums.{AreSmall, place_of, stats_in};

use nand_iface::Stats;
use std::alloc::{AllocError, Global};
use std::marker::Model;

/// The statistics of one device.
#[derive(Clone, Copy)]
pub struct DeviceSums {
    pub dev: u32,
    pub stats: Stats,
}

/// The statistics of devices since the start of the boot: those of a device without an entry are 0.
#[derive(Drop)]
pub struct Sums {
    entries: Vec<DeviceSums>,
}

impl Model for Sums {
    ghost use Rattle.std.specs.Prelude.{List};
    ghost use Rattle.chip_core.specs.declared.sums.DeviceSums.{DeviceSums};

    ghost Value = { List DeviceSums };

    ghost view = { λ s. s.entries.items };
}

impl Sums {
    /// No entry, which takes no memory.
    pub fn new(alloc: Global) -> Sums
        ensures { result ≡ [] }
    {
        Sums {
            entries: Vec::new(alloc),
        }
    }

    /// The statistics of a device.
    pub fn get(&self, dev: u32) -> Stats
        ensures { result ≡ stats_in self.now dev }
    {
        match self.place(dev) {
            None => Stats {
                corrected: 0,
                failed: 0,
            },
            Some(at) => self.entries[at].stats,
        }
    }

    /// Makes an entry for a device that has none, and leaves all statistics as they are.
    pub fn make_entry(&mut self, dev: u32) -> Result<(), AllocError>
        ensures there { OnOk result (IsSome (place_of self.new dev)) }
        ensures stats { stats_in self.new ≡ stats_in self.old }
    {
        if self.place(dev).is_none() {
            let stats = Stats {
                corrected: 0,
                failed: 0,
            };
            self.entries.push(DeviceSums { dev, stats })?;
        }
        Ok(())
    }

    /// Adds the corrected bits and the failed steps of a decoded page to the statistics of a device
    /// that has an entry. It takes no memory.
    pub fn add(&mut self, dev: u32, corrected: u32, failed: u32)
        requires there { IsSome (place_of self.old dev) }
        requires small { AreSmall (stats_in self.old dev) }
        ensures { (d : Decoding) → d.corrected ≡ corrected → d.failed ≡ failed → stats_in self.new
            ≡ with_statistics (stats_in self.old) dev d }
    {
        match self.place(dev) {
            None => unreachable!(),
            Some(at) => {
                let stats = &mut self.entries[at].stats;
                stats.corrected += u64::from(corrected);
                stats.failed += u64::from(failed);
            }
        }
    }

    // The place of a device's entry.
    fn place(&self, dev: u32) -> Option<usize>
        ensures { result ≡ place_of self.now dev }
    {
        self.entries.iter().position(|entry| entry.dev == dev)
    }
}
