//! Outputs for devices.
ghost use Rattle.std.specs.Prelude.{◌≡◌, true};

use crate::disk::Disk;
use crate::outputs::FileOutput;
use std::marker::PhantomData;

/// An output for a device.
#[derive(Drop)]
pub(crate) struct DeviceOutput<'o, D: Disk> {
    pub(crate) output: FileOutput<'o>,
    disk: PhantomData<D>,
    ghost there: { D.has_device output.path.now ≡ true },
}

impl<'o, D: Disk + Drop> DeviceOutput<'o, D> {
    pub(crate) fn new(output: FileOutput<'o>) -> DeviceOutput<'o, D>
        requires { D.has_device output.path.now ≡ true }
        ensures { result.output ≡ output.entry }
    {
        DeviceOutput {
            output,
            disk: PhantomData,
        }
    }
}
