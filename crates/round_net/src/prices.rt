//! A price for an opening of each row in each round.

use crate::flat::cell;
use crate::net::Net;
use crate::price_range::PriceRange;
use std::alloc::{AllocError, Global};
use std::marker::Model;

/// What one opening of each row is worth in each round, in weighted rounds.
///
/// There is a row for each device, after these one for each adapter, and after these one for each link. Rows, devices,
/// adapters and links are numbered from 0, rounds from 1. Each number that a call takes has to be within the net.
#[derive(Debug, Drop)]
pub struct Prices {
    rounds: u32,
    devices: u32,
    adapters: u32,
    links: u32,
    max_price: u64,
    prices: Vec<u64>,
}

impl Model for Prices {
    ghost use Rattle.round_net.specs.PriceRows.{PriceRows, IsPriced};

    ghost Value = { PriceRows };

    ghost view = { λ p. record { rounds = p.rounds; devices = p.devices; adapters = p.adapters; links = p.links; max_price = p.max_price; prices = p.prices.items } };

    ghost invariant = { λ p. IsPriced (record { rounds = p.rounds; devices = p.devices; adapters = p.adapters; links = p.links; max_price = p.max_price; prices = p.prices.items }) };
}

impl Prices {
    ghost use Rattle.std.specs.Prelude.{◌≡◌, ℕ, ◌+◌, ◌*◌, ◌<◌, ◌≤◌, ◌↔◌, length, All, IsOk, IfOk, OnOk, OnErr};
    ghost use Rattle.round_net.specs.Instance.{rows};
    ghost use Rattle.round_net.specs.declared.price_range.TheConstants.{MAX_NET_PRICE};
    ghost use Rattle.round_net.specs.Rows.{instance_of_rows};
    ghost use Rattle.round_net.specs.PriceRows.{pricing_of_rows, IsPriced, IsPricingFor, SetsPrice};

    /// Prices for the net, each of them 0.
    #[tactic(auto, unfolding(crate::specs::PriceRows::pricing_of_rows))]
    pub fn zero(alloc: Global, net: &Net) -> Result<Prices, AllocError>
        ensures size { IfOk result (λ prices. IsPricingFor (instance_of_rows net.now) prices) }
        ensures none { IfOk result (λ prices. (row r : ℕ) → pricing_of_rows prices row r ≡ 0) }
    {
        let cells = net.rows() as usize * net.rounds() as usize;
        Ok(Prices {
            rounds: net.rounds(),
            devices: net.devices(),
            adapters: net.adapters(),
            links: net.links(),
            max_price: net.max_price(),
            prices: vec![in alloc; 0; cells]?,
        })
    }

    /// Prices for the net that stand in a list: those of the first row's rounds, then those of the second one's, and so on.
    /// No price may be above the net's largest.
    #[tactic(auto, unfolding(crate::specs::Rows::instance_of_rows))]
    pub fn listed(net: &Net, prices: Vec<u64>) -> Prices
        requires cells { let n = instance_of_rows net.now in length prices.items ≡ rows n * n.rounds }
        requires small { All (λ price. price ≤ (instance_of_rows net.now).max_price) prices.items }
        ensures { let n = instance_of_rows net.now in result ≡ record { rounds = n.rounds; devices = n.devices; adapters = n.adapters; links = n.links; max_price = n.max_price; prices = prices.items } }
    {
        Prices {
            rounds: net.rounds(),
            devices: net.devices(),
            adapters: net.adapters(),
            links: net.links(),
            max_price: net.max_price(),
            prices,
        }
    }

    /// How many prices there are: one for each round of each row.
    pub fn cells(&self) -> usize
        ensures value { result ≡ length self.now.prices }
        ensures priced { IsPriced self.now }
    {
        self.prices.len()
    }

    /// What an opening of the row is worth in the round.
    #[tactic(auto, unfolding(crate::specs::PriceRows::pricing_of_rows))]
    pub fn price(&self, row: u32, round: u32) -> u64
        requires row { row < self.now.devices + self.now.adapters + self.now.links }
        requires first { 1 ≤ round }
        requires last { round ≤ self.now.rounds }
        ensures same { result ≡ pricing_of_rows self.now row round }
        ensures most { result ≤ self.now.max_price }
        ensures few { self.now.max_price ≤ MAX_NET_PRICE }
    {
        self.prices[cell(self.rounds, row, round)]
    }

    /// What an opening of the device is worth in the round.
    pub fn dev(&self, device: u32, round: u32) -> u64
        requires device { device < self.now.devices }
        requires first { 1 ≤ round }
        requires last { round ≤ self.now.rounds }
        ensures same { result ≡ pricing_of_rows self.now device round }
        ensures most { result ≤ self.now.max_price }
        ensures few { self.now.max_price ≤ MAX_NET_PRICE }
    {
        self.price(device, round)
    }

    /// What an opening of the adapter is worth in the round.
    pub fn sim(&self, adapter: u32, round: u32) -> u64
        requires adapter { adapter < self.now.adapters }
        requires first { 1 ≤ round }
        requires last { round ≤ self.now.rounds }
        ensures same { result ≡ pricing_of_rows self.now (self.now.devices + adapter) round }
        ensures most { result ≤ self.now.max_price }
        ensures few { self.now.max_price ≤ MAX_NET_PRICE }
    {
        self.price(self.devices + adapter, round)
    }

    /// What an opening of the link is worth in the round.
    pub fn link(&self, link: u32, round: u32) -> u64
        requires link { link < self.now.links }
        requires first { 1 ≤ round }
        requires last { round ≤ self.now.rounds }
        ensures same { result ≡ pricing_of_rows self.now (self.now.devices + self.now.adapters + link) round }
        ensures most { result ≤ self.now.max_price }
        ensures few { self.now.max_price ≤ MAX_NET_PRICE }
    {
        self.price(self.devices + self.adapters + link, round)
    }

    /// Sets what an opening of the row is worth in the round. A price above the net's largest is refused, and the prices
    /// are as they were.
    pub fn set(&mut self, row: u32, round: u32, price: u64) -> Result<(), PriceRange>
        requires row { row < self.old.devices + self.old.adapters + self.old.links }
        requires first { 1 ≤ round }
        requires last { round ≤ self.old.rounds }
        ensures range { IsOk result ↔ (price ≤ self.old.max_price) }
        ensures ok { OnOk result (SetsPrice self.old self.new row round price) }
        ensures err { OnErr result (self.new ≡ self.old) }
    {
        if price > self.max_price {
            return Err(PriceRange);
        }
        let at = cell(self.rounds, row, round);
        self.prices[at] = price;
        Ok(())
    }

    /// Sets what an opening of the device is worth in the round, or refuses it, as `set` does.
    pub fn set_dev(&mut self, device: u32, round: u32, price: u64) -> Result<(), PriceRange>
        requires device { device < self.old.devices }
        requires first { 1 ≤ round }
        requires last { round ≤ self.old.rounds }
        ensures range { IsOk result ↔ (price ≤ self.old.max_price) }
        ensures ok { OnOk result (SetsPrice self.old self.new device round price) }
        ensures err { OnErr result (self.new ≡ self.old) }
    {
        self.set(device, round, price)
    }

    /// Sets what an opening of the adapter is worth in the round, or refuses it, as `set` does.
    pub fn set_sim(&mut self, adapter: u32, round: u32, price: u64) -> Result<(), PriceRange>
        requires adapter { adapter < self.old.adapters }
        requires first { 1 ≤ round }
        requires last { round ≤ self.old.rounds }
        ensures range { IsOk result ↔ (price ≤ self.old.max_price) }
        ensures ok { OnOk result (SetsPrice self.old self.new (self.old.devices + adapter) round price) }
        ensures err { OnErr result (self.new ≡ self.old) }
    {
        let row = self.devices + adapter;
        self.set(row, round, price)
    }

    /// Sets what an opening of the link is worth in the round, or refuses it, as `set` does.
    pub fn set_link(&mut self, link: u32, round: u32, price: u64) -> Result<(), PriceRange>
        requires link { link < self.old.links }
        requires first { 1 ≤ round }
        requires last { round ≤ self.old.rounds }
        ensures range { IsOk result ↔ (price ≤ self.old.max_price) }
        ensures ok { OnOk result (SetsPrice self.old self.new (self.old.devices + self.old.adapters + link) round price) }
        ensures err { OnErr result (self.new ≡ self.old) }
    {
        let row = self.devices + self.adapters + link;
        self.set(row, round, price)
    }
}
