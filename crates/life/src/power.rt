// A commissioned handset, switched on or off.
use handset::off::SwitchedOff;
use handset::switched_on::SwitchedOn;
use keeper::Keeper;
use uplink::queue::Uplink;

pub enum Power<U: Uplink, K: Keeper> {
    On(SwitchedOn<U, K>),
    Off(SwitchedOff<U, K>),
}
