// Whether there is room for a search over a rule of n states: a cell and a byte for each of them.
ghost use Rattle.std.specs.Prelude.{◌≡◌};
ghost use Rattle.explore.specs.Room.{bytes_checked, cells_checked};

use automaton::fault::Fault;
use automaton::kind::FaultKind;
use automaton::layer::Layer;

// Refuses fewer cells than states.
pub fn check_cells(layer: Layer, states: usize, cells: usize) -> Result<(), Fault>
    ensures { result ≡ cells_checked layer states cells }
{
    if cells < states {
        return Err(Fault::new(FaultKind::TooFewCells, layer));
    }
    Ok(())
}

// Refuses a buffer of fewer bytes than there are states.
pub fn check_bytes(layer: Layer, states: usize, bytes: usize) -> Result<(), Fault>
    ensures { result ≡ bytes_checked layer states bytes }
{
    if bytes < states {
        return Err(Fault::new(FaultKind::BufferTooShort, layer));
    }
    Ok(())
}
