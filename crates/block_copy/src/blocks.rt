//! The blocks that are copied, and which CCB is for which block.

use cam_types::Command;
use sense_class::{CAM_BUSY, CAM_REQ_CMP};
use std::alloc::{AllocError, Global};
use std::sync::{Mutex, Wait};

/// How many blocks there are.
pub const BLOCKS: usize = 128;
/// How many bytes a block has.
pub const SIZE: usize = 512;

/// The blocks of a text and of its copy, and the table of CCBs. No lock here is the transport's.
#[derive(Drop)]
pub struct Blocks {
    text: Vec<[u8; SIZE]>,
    copy: Vec<Mutex<[u8; SIZE]>>,
    /// For each CCB, by its number, the number of its block.
    pub table: Mutex<[Option<usize>; BLOCKS]>,
}

impl Blocks {
    /// A text in which no two blocks are the same, and a copy that is all zeros.
    pub fn new(alloc: Global) -> Result<Blocks, AllocError> {
        let mut text = Vec::with_capacity(alloc, BLOCKS)?;
        let mut copy = Vec::with_capacity(alloc, BLOCKS)?;
        for number in 0..BLOCKS as u8 {
            text.push(block(number))?;
            copy.push(Mutex::new([0; SIZE]))?;
        }
        Ok(Blocks {
            text,
            copy,
            table: Mutex::new([None; BLOCKS]),
        })
    }

    /// Serves a command and gives its CAM status: its block is copied, each tenth one only at the second try. `None` if the
    /// CCB has no block.
    pub fn serve<R: Wait>(&self, rt: &R, command: &Command) -> Option<u8> {
        let number = (*self.table.lock(rt).get(command.ccb as usize)?)?;
        if number % 10 == 0 && command.attempt == 0 {
            return Some(CAM_BUSY);
        }
        *self.copy.get(number)?.lock(rt) = *self.text.get(number)?;
        Some(CAM_REQ_CMP)
    }

    /// The first block of the copy that isn't the text's.
    pub fn first_difference<R: Wait>(&self, rt: &R) -> Option<usize> {
        for (number, (text, copy)) in self.text.iter().zip(self.copy.iter()).enumerate() {
            if *copy.lock(rt) != *text {
                return Some(number);
            }
        }
        None
    }
}

// A block of the text: each byte is the block's number and the byte's place, added.
fn block(number: u8) -> [u8; SIZE] {
    let mut block = [number; SIZE];
    for (place, byte) in block.iter_mut().enumerate() {
        *byte = byte.wrapping_add((place % 251) as u8);
    }
    block
}
