// cartplan: tells what a site file describes, or what is wrong with it.
#![tactic(auto)]

mod site_text;

use site_text::{FloorText, TapeText};
use sitefile::SiteHead;
use std::process::ExitCode;
use std::{env, fs};
use tables::tape::{MOST_LANES, MOST_PLACES};
use tables::{Cell, LONGEST_SIDE, Lane, LaneCost, LaneState, Place};

const HELP: &str = "cartplan checks the site files of tow carts.

  cartplan check SITE..   print the site that each file SITE describes; or the line
                          'fault CAUSE at BYTE layer LAYER', and end with status 1
  cartplan help           print this text

A floor is printed as 'floor ROWS x COLUMNS, free FREE', then a line a row: the milliseconds
to enter each cell, - for a closed one. A tape is printed as 'tape PLACES places, LANES lanes',
then a line a place: its number and its coordinates in millimetres; then a line a lane: its
number, the places it leads from and to, its floor and its present cost as
CROSSINGS/MILLISECONDS, - for a closed one.

For example
  cartplan check floor-3x3.site
prints
  floor 3 x 3, free 10
  10 10 10
  10 - 10
  - 10 10";

// Prints the site that a file describes, or what is wrong with it.
fn print_site(rt: &HostRuntime, file: &[u8]) -> anyhow::Result<ExitCode> {
    let heap = rt.alloc();
    let most_cells = (LONGEST_SIDE * LONGEST_SIDE) as usize;
    let no_cost = LaneCost {
        crossings: 0,
        milliseconds: 1,
    };
    let no_lane = Lane::new(0, 0, no_cost, LaneState::Closed);
    let mut cells = vec![in heap; Cell::Closed; most_cells]?;
    let mut places = vec![in heap; Place::at(0, 0); MOST_PLACES as usize]?;
    let mut lanes = vec![in heap; no_lane; MOST_LANES as usize]?;
    match sitefile::load(
        file,
        cells.as_mut_slice(),
        places.as_mut_slice(),
        lanes.as_mut_slice(),
    ) {
        Ok(SiteHead::Floor(head)) => {
            let floor = FloorText {
                head,
                cells: cells.as_slice(),
            };
            println!(rt; "{floor}")?;
            Ok(ExitCode::SUCCESS)
        }
        Ok(SiteHead::Tape(head)) => {
            let tape = TapeText {
                head,
                places: places.as_slice(),
                lanes: lanes.as_slice(),
            };
            println!(rt; "{tape}")?;
            Ok(ExitCode::SUCCESS)
        }
        Err(fault) => {
            println!(rt; "{fault}")?;
            Ok(ExitCode::FAILURE)
        }
    }
}

fn check(rt: &HostRuntime, path: &str) -> anyhow::Result<ExitCode> {
    match fs::read(rt, path) {
        Ok(file) => print_site(rt, file.as_slice()),
        Err(error) => {
            eprintln!(rt; "cartplan: {path}: {error}")?;
            Ok(ExitCode::FAILURE)
        }
    }
}

fn check_all(rt: &HostRuntime, paths: &[String]) -> anyhow::Result<ExitCode> {
    let mut status = ExitCode::SUCCESS;
    for path in paths {
        if check(rt, path.as_str())? != ExitCode::SUCCESS {
            status = ExitCode::FAILURE;
        }
    }
    Ok(status)
}

fn main(rt: HostRuntime) -> anyhow::Result<ExitCode> {
    let words: Vec<String> = env::args(&rt)?.skip(1).collect(rt.alloc())?;
    match words.as_slice() {
        [command, paths @ ..] if command.as_str() == "check" && !paths.is_empty() => {
            check_all(&rt, paths)
        }
        [command] if command.as_str() == "help" => {
            println!(&rt; "{HELP}")?;
            Ok(ExitCode::SUCCESS)
        }
        _ => {
            eprintln!(&rt; "{HELP}")?;
            Ok(ExitCode::FAILURE)
        }
    }
}
