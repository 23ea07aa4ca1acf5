//! The order in which modules come.
ghost use Rattle.graph_bundle.specs.Bundle as spec;

use crate::part::Part;
use graph_builder::Arrival;
use import_map::json_reading::Reading;
use serde_json::Value;
use std::alloc::{AllocError, Global};
use url::Url;

impl Part for Arrival {
    ghost says = { spec.arrival_of };

    fn read(alloc: Global, value: &Value) -> Result<Reading<Arrival>, AllocError> {
        if value.is_null() {
            return Ok(Ok(Arrival::Pending));
        }
        match Url::read(alloc, value)? {
            Ok(url) => Ok(Ok(Arrival::Answer(url))),
            Err(at) => Ok(Err(at)),
        }
    }
}
