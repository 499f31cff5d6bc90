//! What no clause says: printed tables, of rows and of gateways.
mod builders;
mod rollups;
mod tables;
