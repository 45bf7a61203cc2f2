// The pieces of which lines are made.
ghost use Rattle.std.specs.Prelude.{◌≡◌, [], ◌++◌, if◌then◌else◌, map, flat_map, codes, decimal, OnOk};
ghost use Rattle.std.specs.List.{zip};
ghost use Rattle.std.specs.Fmt.{signed_decimal};
ghost use Rattle.rx_base.specs.Values.{in_quotes};
ghost use Rattle.rx_lane.specs.Lanes.{has, lanes_where};
ghost use Rattle.rx_lines.specs.Lines as report;

use crate::draft::Draft;
use itoa::Buffer;
use rx_base::{Int, Name, Str};
use rx_lane::{Lane, Lanes};
use std::alloc::AllocError;

// The name of a lane.
fn lane_name(lane: Lane) -> &'static str
    ensures { result.now ≡ report.lane_name lane }
{
    match lane {
        Lane::Sync => "Sync",
        Lane::Input => "Input",
        Lane::Default => "Default",
        Lane::T1 => "T1",
        Lane::T2 => "T2",
        Lane::T3 => "T3",
        Lane::T4 => "T4",
        Lane::T5 => "T5",
        Lane::T6 => "T6",
        Lane::T7 => "T7",
        Lane::T8 => "T8",
        Lane::T9 => "T9",
        Lane::T10 => "T10",
        Lane::T11 => "T11",
        Lane::T12 => "T12",
        Lane::T13 => "T13",
        Lane::T14 => "T14",
        Lane::T15 => "T15",
        Lane::T16 => "T16",
        Lane::Retry => "Retry",
    }
}

impl Draft {
    // What stands before a piece, unless it is the first.
    fn put_between(&mut self, first: bool, between: &[u8]) -> Result<(), AllocError>
        ensures put { OnOk result (self.new.begun ≡ self.old.begun ++ (if first then [] else between.now)) }
        ensures done { self.new.done ≡ self.old.done }
    {
        if first {
            return Ok(());
        }
        self.put(between)
    }

    // The names of these lanes, by falling priority.
    fn put_names(&mut self, lanes: Lanes) -> Result<(), AllocError>
        ensures put { OnOk result (self.new.begun ≡ self.old.begun ++ report.joined (codes "+") (map report.lane_name (lanes_where (has lanes)))) }
        ensures done { self.new.done ≡ self.old.done }
    {
        let mut first = true;
        'naming: for lane in &Lane::ALL {
            if lanes.has(*lane) {
                self.put_between(first, b"+")?;
                self.put(lane_name(*lane).as_bytes())?;
                first = false;
            }
        }
        Ok(())
    }

    /// The names of these lanes, or `none`.
    pub fn put_lanes(&mut self, lanes: Lanes) -> Result<(), AllocError>
        ensures put { OnOk result (self.new.begun ≡ self.old.begun ++ report.lanes_text (lanes_where (has lanes))) }
        ensures done { self.new.done ≡ self.old.done }
    {
        if lanes.is_none() {
            return self.put(b"none");
        }
        self.put_names(lanes)
    }

    /// A number without a sign.
    pub fn put_number(&mut self, number: u64) -> Result<(), AllocError>
        ensures put { OnOk result (self.new.begun ≡ self.old.begun ++ decimal number) }
        ensures done { self.new.done ≡ self.old.done }
    {
        let mut buffer = Buffer::new();
        self.put(buffer.format(number).as_bytes())
    }

    /// An integer.
    pub fn put_int(&mut self, value: Int) -> Result<(), AllocError>
        ensures put { OnOk result (self.new.begun ≡ self.old.begun ++ signed_decimal value) }
        ensures done { self.new.done ≡ self.old.done }
    {
        let mut buffer = Buffer::new();
        self.put(buffer.format(value.value()).as_bytes())
    }

    /// A name.
    pub fn put_name(&mut self, name: &Name) -> Result<(), AllocError>
        ensures put { OnOk result (self.new.begun ≡ self.old.begun ++ name.now) }
        ensures done { self.new.done ≡ self.old.done }
    {
        self.put(name.text().as_bytes())
    }

    /// A text between quotes.
    pub fn put_quoted(&mut self, text: &Str) -> Result<(), AllocError>
        ensures put { OnOk result (self.new.begun ≡ self.old.begun ++ in_quotes text.now) }
        ensures done { self.new.done ≡ self.old.done }
    {
        self.put(b"\"")?;
        self.put(text.text().as_bytes())?;
        self.put(b"\"")
    }

    // A part of a path.
    fn put_part(&mut self, part: &(Name, u64)) -> Result<(), AllocError>
        ensures put { OnOk result (self.new.begun ≡ self.old.begun ++ report.part_text part.now) }
        ensures done { self.new.done ≡ self.old.done }
    {
        let (name, number) = part;
        self.put_name(name)?;
        if *number != 0 {
            self.put(b"@")?;
            self.put_number(*number)?;
        }
        Ok(())
    }

    /// A path.
    pub fn put_path(&mut self, path: &[(Name, u64)]) -> Result<(), AllocError>
        ensures put { OnOk result (self.new.begun ≡ self.old.begun ++ report.joined (codes "/") (map report.part_text path.now)) }
        ensures done { self.new.done ≡ self.old.done }
    {
        let mut first = true;
        'parts: for part in path {
            self.put_between(first, b"/")?;
            self.put_part(part)?;
            first = false;
        }
        Ok(())
    }

    /// The counts of a render, if they are asked for.
    pub fn put_counts(&mut self, shown: bool, units: u64, bodies: u64) -> Result<(), AllocError>
        ensures put { OnOk result (self.new.begun ≡ self.old.begun ++ report.counts_text shown (record { units = units; bodies = bodies })) }
        ensures done { self.new.done ≡ self.old.done }
    {
        if !shown {
            return Ok(());
        }
        self.put(b" units ")?;
        self.put_number(units)?;
        self.put(b" bodies ")?;
        self.put_number(bodies)
    }

    /// An instance, by its number.
    pub fn put_instance(&mut self, instance: u64) -> Result<(), AllocError>
        ensures put { OnOk result (self.new.begun ≡ self.old.begun ++ report.instance_text instance) }
        ensures done { self.new.done ≡ self.old.done }
    {
        self.put(b"[")?;
        self.put_number(instance)?;
        self.put(b"]")
    }

    // A hook with its value.
    fn put_hook(&mut self, name: &Name, value: Int) -> Result<(), AllocError>
        ensures put { OnOk result (self.new.begun ≡ self.old.begun ++ report.hook_text (record { name = name.now; value = value })) }
        ensures done { self.new.done ≡ self.old.done }
    {
        self.put(b" ")?;
        self.put_name(name)?;
        self.put(b"=")?;
        self.put_int(value)
    }

    /// Hooks with their values.
    pub fn put_hooks(&mut self, names: &[Name], values: &[Int]) -> Result<(), AllocError>
        ensures put { OnOk result (self.new.begun ≡ self.old.begun ++ flat_map report.hook_text (map (λ x. record { name = x.0; value = x.1 }) (zip names.now values.now))) }
        ensures done { self.new.done ≡ self.old.done }
    {
        'hooks: for (hook, name) in names.iter().enumerate() {
            if let Some(value) = values.get(hook) {
                self.put_hook(name, *value)?;
            }
        }
        Ok(())
    }

    /// Integers with a space before each.
    pub fn put_values(&mut self, values: &[Int]) -> Result<(), AllocError>
        ensures put { OnOk result (self.new.begun ≡ self.old.begun ++ flat_map (λ x. codes " " ++ signed_decimal x) values.now) }
        ensures done { self.new.done ≡ self.old.done }
    {
        'values: for value in values {
            self.put(b" ")?;
            self.put_int(*value)?;
        }
        Ok(())
    }

    /// A word for what is hidden.
    pub fn put_hidden(&mut self, hidden: bool) -> Result<(), AllocError>
        ensures put { OnOk result (self.new.begun ≡ self.old.begun ++ report.hidden_text hidden) }
        ensures done { self.new.done ≡ self.old.done }
    {
        if !hidden {
            return Ok(());
        }
        self.put(b" hidden")
    }
}
